// The refusals of a setting.
ghost use Rattle.std.specs.Prelude.{◌≡◌, Some};
ghost use Rattle.reading.specs.Refusals.{refusal_number, refusal_words};

use std::error::Error;
use std::fmt;

// Why a setting was not taken. A refusal leaves everything as it was.
#[derive(Clone, Copy, PartialEq, Eq, Debug)]
pub enum SettingRefusal {
    NoChannel = 61,
    BadWeight = 62,
    BadInterval = 63,
}

impl SettingRefusal {
    // The number that the refusal is reported by.
    pub fn number(self) -> u8
        ensures { result ≡ refusal_number self }
    {
        self as u8
    }
}

impl fmt::Display for SettingRefusal {
    ghost output = { λ refusal. Some (refusal_words refusal) };

    fn fmt<W: fmt::Write>(&self, f: &mut fmt::Formatter<W>) -> fmt::Result {
        f.write_str(match self {
            SettingRefusal::NoChannel => "the channel is not there",
            SettingRefusal::BadWeight =>
                "a weight is at most 268435455 g either way, and a tare not negative",
            SettingRefusal::BadInterval =>
                "an interval is 1, 2 or 5 times a power of ten, at most 50000 g",
        })
    }
}

impl Error for SettingRefusal {}
