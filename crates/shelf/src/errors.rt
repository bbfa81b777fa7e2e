// Why a text is not kept, in the words of a record. Its first words are fixed, so that other programs can read it.
use recipe::Refusal;
use std::alloc::{AllocError, AllocFailed};
use std::error::Error;
use std::fmt;

// What a compile is answered that keeps nothing.
#[derive(PartialEq, Eq, Debug, Drop)]
pub enum NotKept {
    // A refused text comes back.
    Refused { refusal: Refusal, text: Vec<u8> },
    // More names than the shelf keeps.
    TooManyRecipes,
}

// Why a compile keeps nothing. Memory that runs out is no answer. It is not one type with a line's error, over what is
// told: a conversion from anything that is told and one from want of memory would overlap.
#[derive(PartialEq, Eq, Debug, Drop)]
pub enum CompileError {
    NotKept(NotKept),
    Memory(AllocError),
}

impl fmt::Display for NotKept {
    ghost use Rattle.std.specs.Prelude.{Some};
    ghost use Rattle.shelf.specs.Words.{not_kept_words};

    ghost output = { λ reason. Some (not_kept_words reason) };

    fn fmt<W: fmt::Write>(&self, f: &mut fmt::Formatter<W>) -> fmt::Result {
        match self {
            NotKept::Refused { refusal, .. } => write!(f, "refused {refusal}"),
            NotKept::TooManyRecipes => write!(f, "not understood: at most 100 recipes are kept"),
        }
    }
}

impl fmt::Display for CompileError {
    ghost use Rattle.shelf.specs.Words.{compile_error_words};

    ghost output = { compile_error_words };

    fn fmt<W: fmt::Write>(&self, f: &mut fmt::Formatter<W>) -> fmt::Result {
        match self {
            CompileError::NotKept(cause) => write!(f, "{cause}"),
            CompileError::Memory(cause) => write!(f, "{cause}"),
        }
    }
}

impl Error for NotKept {}

impl Error for CompileError {}

impl From<NotKept> for CompileError {
    ghost use Rattle.std.specs.Prelude.{◌≡◌};
    ghost use Rattle.shelf.specs.declared.errors.CompileError.TheVariants as the;

    ghost from_gives = { λ reason error. error ≡ the.NotKept reason };

    fn from(reason: NotKept) -> CompileError {
        CompileError::NotKept(reason)
    }
}

impl From<AllocError> for CompileError {
    ghost use Rattle.std.specs.Prelude.{◌≡◌};
    ghost use Rattle.shelf.specs.declared.errors.CompileError.TheVariants as the;

    ghost from_gives = { λ refused error. error ≡ the.Memory refused };

    fn from(refused: AllocError) -> CompileError {
        CompileError::Memory(refused)
    }
}

// So that `insert` can be given a `?`. What had no place is let go.
impl<T: Drop> From<AllocFailed<T>> for CompileError {
    ghost use Rattle.std.specs.Prelude.{◌≡◌};
    ghost use Rattle.shelf.specs.declared.errors.CompileError.TheVariants as the;

    ghost from_gives = { λ _ error. (refused : _) × (error ≡ the.Memory refused) };

    fn from(refused: AllocFailed<T>) -> CompileError {
        CompileError::Memory(refused.into())
    }
}
