// How one error becomes another, where a line is not understood or memory runs out.
ghost use Rattle.std.specs.Prelude.{◌≡◌};
ghost use Rattle.command.specs.declared.types.Misreading.TheVariants.{Arguments};
ghost use Rattle.command.specs.declared.types.ParseError.TheVariants as the;

use crate::misread::Misread;
use crate::types::{Misreading, ParseError, Verb, Wanted};
use std::alloc::{AllocError, AllocFailed};

impl From<Misreading> for ParseError {
    ghost from_gives = { λ misreading error. error ≡ the.Misread misreading };

    fn from(misreading: Misreading) -> ParseError {
        ParseError::Misread(misreading)
    }
}

impl From<Misread<Verb, Wanted>> for ParseError {
    ghost from_gives = { λ misread error. error ≡ the.Misread (Arguments misread) };

    fn from(misread: Misread<Verb, Wanted>) -> ParseError {
        ParseError::Misread(Misreading::Arguments(misread))
    }
}

impl From<AllocError> for ParseError {
    ghost from_gives = { λ refused error. error ≡ the.Memory refused };

    fn from(refused: AllocError) -> ParseError {
        ParseError::Memory(refused)
    }
}

// So that `push` can be given a `?`. The value that had no place is let go.
impl<T: Drop> From<AllocFailed<T>> for ParseError {
    ghost from_gives = { λ _ error. (refused : _) × (error ≡ the.Memory refused) };

    fn from(refused: AllocFailed<T>) -> ParseError {
        ParseError::Memory(refused.into())
    }
}
