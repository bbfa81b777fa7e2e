// The faults of a reading.
ghost use Rattle.std.specs.Prelude.{◌≡◌, Some};
ghost use Rattle.reading.specs.Faults.{fault_number, fault_words};

use std::error::Error;
use std::fmt;

// Why a channel gives no weight.
#[derive(Clone, Copy, PartialEq, Eq, Debug)]
pub enum ReadingFault {
    NotFitted = 41,
    NotAtRest = 42,
    BeyondLimit = 43,
}

impl ReadingFault {
    // The number that the fault is reported by.
    pub fn number(self) -> u8
        ensures { result ≡ fault_number self }
    {
        self as u8
    }
}

impl fmt::Display for ReadingFault {
    ghost output = { λ fault. Some (fault_words fault) };

    fn fmt<W: fmt::Write>(&self, f: &mut fmt::Formatter<W>) -> fmt::Result {
        f.write_str(match self {
            ReadingFault::NotFitted => "not fitted",
            ReadingFault::NotAtRest => "not at rest",
            ReadingFault::BeyondLimit => "beyond the limit",
        })
    }
}

impl Error for ReadingFault {}
