// What an arithmetic answers where it has no value.
ghost use Rattle.std.specs.Prelude.{◌≡◌, Some};
ghost use Rattle.arithmetic.specs.Faults.{fault_number, fault_words};

use std::error::Error;
use std::fmt;

#[derive(Clone, Copy, PartialEq, Eq, Debug)]
pub enum ArithmeticFault {
    OutOfRange = 31,
    DivisorZero = 32,
}

impl ArithmeticFault {
    // The number under which a terminal reports the fault.
    pub fn number(self) -> u8
        ensures { result ≡ fault_number self }
    {
        self as u8
    }
}

impl fmt::Display for ArithmeticFault {
    ghost output = { λ fault. Some (fault_words fault) };

    fn fmt<W: fmt::Write>(&self, f: &mut fmt::Formatter<W>) -> fmt::Result {
        f.write_str(match self {
            ArithmeticFault::OutOfRange => "out of range",
            ArithmeticFault::DivisorZero => "divisor zero",
        })
    }
}

impl Error for ArithmeticFault {}
