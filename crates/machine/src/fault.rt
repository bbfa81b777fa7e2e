// What can end a run without a value.
ghost use Rattle.std.specs.Prelude.{◌≡◌};
ghost use Rattle.machine.specs.Faults.{channel_of, engine_number, fault_number, layer_of};
ghost use Rattle.machine.specs.declared.fault.Fault.TheVariants.{OfArithmetic, OfReading};

use arithmetic::ArithmeticFault;
use reading::{AtChannel, ReadingFault};

// The faults of the machine itself.
#[derive(Clone, Copy, PartialEq, Eq, Debug)]
pub enum EngineFault {
    TooDeep = 51,
    Impossible = 52,
}

impl EngineFault {
    // The number that the fault is reported by.
    pub fn number(self) -> u8
        ensures { result ≡ engine_number self }
    {
        self as u8
    }
}

// A reading's fault, with its channel.
pub type ChannelFault = AtChannel<ReadingFault>;

#[derive(Clone, Copy, PartialEq, Eq, Debug)]
pub enum Fault {
    OfArithmetic(ArithmeticFault),
    OfReading(ChannelFault),
    OfEngine(EngineFault),
}

// Where a fault comes from.
#[derive(Clone, Copy, PartialEq, Eq, Debug)]
pub enum Layer {
    Arithmetic,
    Reading,
    Engine,
}

impl From<ArithmeticFault> for Fault {
    ghost from_gives = { λ x y. y ≡ OfArithmetic x };

    fn from(fault: ArithmeticFault) -> Fault {
        Fault::OfArithmetic(fault)
    }
}

impl From<ChannelFault> for Fault {
    ghost from_gives = { λ x y. y ≡ OfReading x };

    fn from(fault: ChannelFault) -> Fault {
        Fault::OfReading(fault)
    }
}

impl Fault {
    // The number that the fault is reported by.
    pub fn number(self) -> u8
        ensures { result ≡ fault_number self }
    {
        match self {
            Fault::OfArithmetic(fault) => fault.number(),
            Fault::OfReading(unread) => unread.fault.number(),
            Fault::OfEngine(fault) => fault.number(),
        }
    }

    pub fn layer(self) -> Layer
        ensures { result ≡ layer_of self }
    {
        match self {
            Fault::OfArithmetic(_) => Layer::Arithmetic,
            Fault::OfReading(_) => Layer::Reading,
            Fault::OfEngine(_) => Layer::Engine,
        }
    }

    // The channel whose reading it was.
    pub fn channel(self) -> Option<u32>
        ensures { result ≡ channel_of self }
    {
        match self {
            Fault::OfReading(unread) => Some(unread.channel),
            _ => None,
        }
    }
}

// The fault that ended a run, with the index of its word.
#[derive(Clone, Copy, PartialEq, Eq, Debug)]
pub struct RunFault {
    pub fault: Fault,
    pub index: usize,
}
