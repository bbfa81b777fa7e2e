// What ends an addition of weights: a fault of a reading, or of the arithmetic.
ghost use Rattle.std.specs.Prelude.{◌≡◌, Some};
ghost use Rattle.weighing.specs.Faults.{weighing_number, weighing_words};
ghost use Rattle.weighing.specs.declared.fault.WeighingFault.TheVariants.{OfReading, OfArithmetic};

use arithmetic::ArithmeticFault;
use reading::{AtChannel, ReadingFault};
use std::error::Error;
use std::fmt;

#[derive(Clone, Copy, PartialEq, Eq, Debug)]
pub enum WeighingFault {
    OfReading(ReadingFault),
    OfArithmetic(ArithmeticFault),
}

impl From<ReadingFault> for WeighingFault {
    ghost from_gives = { λ x y. y ≡ OfReading x };

    fn from(fault: ReadingFault) -> WeighingFault {
        WeighingFault::OfReading(fault)
    }
}

impl From<ArithmeticFault> for WeighingFault {
    ghost from_gives = { λ x y. y ≡ OfArithmetic x };

    fn from(fault: ArithmeticFault) -> WeighingFault {
        WeighingFault::OfArithmetic(fault)
    }
}

impl WeighingFault {
    // The number under which a terminal reports the fault.
    pub fn number(self) -> u8
        ensures { result ≡ weighing_number self }
    {
        match self {
            WeighingFault::OfReading(fault) => fault.number(),
            WeighingFault::OfArithmetic(fault) => fault.number(),
        }
    }
}

impl fmt::Display for WeighingFault {
    ghost output = { λ fault. Some (weighing_words fault) };

    fn fmt<W: fmt::Write>(&self, f: &mut fmt::Formatter<W>) -> fmt::Result {
        match self {
            WeighingFault::OfReading(fault) => fault.fmt(f),
            WeighingFault::OfArithmetic(fault) => fault.fmt(f),
        }
    }
}

impl Error for WeighingFault {}

// What ends a total, with the channel at which it came.
pub type TotalFault = AtChannel<WeighingFault>;
