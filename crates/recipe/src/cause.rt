// The refusal of a recipe text: its cause and its place, and how both are printed.
ghost use Rattle.std.specs.Prelude.{◌≡◌};
ghost use Rattle.recipe.specs.Causes.{cause_number};

use std::error::Error;
use std::fmt;

// Why a text was refused, in the order in which it is asked, and the number that the cause is reported by.
#[derive(Clone, Copy, PartialEq, Eq, Debug)]
pub enum Cause {
    TextTooLong = 1,
    NoRoom = 15,
    UnknownByte = 2,
    NumberTooLarge = 3,
    NameTooLong = 4,
    Grammar = 5,
    Nesting = 6,
    Functions = 7,
    Parameters = 8,
    Constructs = 14,
    DeclaredTwice = 9,
    UnknownName = 10,
    ArgumentCount = 11,
    Channel = 13,
    Frame = 12,
}

impl Cause {
    pub fn number(self) -> u8
        ensures { result ≡ cause_number self }
    {
        self as u8
    }
}

impl fmt::Display for Cause {
    ghost use Rattle.std.specs.Prelude.{Some};
    ghost use Rattle.recipe.specs.Words.{cause_words};

    ghost output = { λ c. Some (cause_words c) };

    fn fmt<W: fmt::Write>(&self, f: &mut fmt::Formatter<W>) -> fmt::Result {
        f.write_str(match self {
            Cause::TextTooLong => "the text is too long",
            Cause::NoRoom => "too little room",
            Cause::UnknownByte => "unknown byte",
            Cause::NumberTooLarge => "number too large",
            Cause::NameTooLong => "name too long",
            Cause::Grammar => "grammar",
            Cause::Nesting => "nested too deep",
            Cause::Functions => "too many functions",
            Cause::Parameters => "too many parameters",
            Cause::Constructs => "too many constructs",
            Cause::DeclaredTwice => "declared twice",
            Cause::UnknownName => "unknown name",
            Cause::ArgumentCount => "number of arguments",
            Cause::Channel => "no such channel",
            Cause::Frame => "frame too large",
        })
    }
}

// A refused text: why, and the place in it, as a byte offset.
#[derive(Clone, Copy, PartialEq, Eq, Debug)]
pub struct Refusal {
    pub cause: Cause,
    pub place: usize,
}

impl fmt::Display for Refusal {
    ghost use Rattle.std.specs.Prelude.{Some};
    ghost use Rattle.recipe.specs.Words.{refusal_words};

    ghost output = { λ r. Some (refusal_words r) };

    fn fmt<W: fmt::Write>(&self, f: &mut fmt::Formatter<W>) -> fmt::Result {
        write!(
            f,
            "{} at {} {}",
            self.cause.number(),
            self.place,
            self.cause
        )
    }
}

impl Error for Refusal {}
