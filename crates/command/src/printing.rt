// How a command is to be written, and why a line is not understood.
ghost use Rattle.std.specs.Prelude.{◌≡◌, ℕ, List, Some};
ghost use Rattle.command.specs.Printed as printed;

use crate::misread::Misread;
use crate::recipes::{RecipeVerb, RecipeWanted};
use crate::types::{Misreading, ParseError, Verb, Wanted};
use std::error::Error;
use std::fmt;

// What is wanted at a place, by the kind of word that can stand there.
pub trait Kind {
    ghost kind_words: { Self → List ℕ };

    fn kind(&self) -> &'static str
        ensures { result.now ≡ kind_words self.now };
}

// The form of a line with the command.
impl fmt::Display for Verb {
    ghost output = { λ verb. Some (printed.form verb) };

    fn fmt<W: fmt::Write>(&self, f: &mut fmt::Formatter<W>) -> fmt::Result {
        f.write_str(match self {
            Verb::Station => "station NUMBER",
            Verb::Records => "records COUNT",
            Verb::Put => "put CHANNEL GRAMS rest, or moving",
            Verb::Raw => "raw CHANNEL GRAMS rest, or moving",
            Verb::Tare => "tare CHANNEL GRAMS",
            Verb::Interval => "interval D",
            Verb::Pile => "pile board, tare, step, step-tare or tare-step",
            Verb::Weigh => "weigh CHANNEL",
            Verb::Total => "total CHANNEL CHANNEL ..",
            Verb::Arithmetic => "arithmetic gram, old or fine",
        })
    }
}

impl fmt::Display for Wanted {
    ghost output = { λ wanted. Some (printed.name wanted) };

    fn fmt<W: fmt::Write>(&self, f: &mut fmt::Formatter<W>) -> fmt::Result {
        f.write_str(match self {
            Wanted::StationNumber => "the station's number",
            Wanted::Count => "the count of records",
            Wanted::Channel => "the channel",
            Wanted::Grams => "the weight",
            Wanted::Mark => "the mark",
            Wanted::Interval => "the interval",
            Wanted::Pile => "the pile",
            Wanted::Arithmetic => "the arithmetic",
        })
    }
}

impl Kind for Wanted {
    ghost kind_words = { printed.kind };

    fn kind(&self) -> &'static str {
        match self {
            Wanted::Channel => "a whole number; channels are 1 to 64",
            Wanted::StationNumber | Wanted::Count | Wanted::Interval =>
                "a whole number, at most 4294967295",
            Wanted::Grams => "whole grams from -2147483648 to 2147483647",
            Wanted::Mark => "rest or moving",
            Wanted::Pile => "board, tare, step, step-tare or tare-step",
            Wanted::Arithmetic => "gram, old or fine",
        }
    }
}

// The form of a line with the command.
impl fmt::Display for RecipeVerb {
    ghost output = { λ verb. Some (printed.recipe_form verb) };

    fn fmt<W: fmt::Write>(&self, f: &mut fmt::Formatter<W>) -> fmt::Result {
        f.write_str(match self {
            RecipeVerb::Recipe => "recipe NAME",
            RecipeVerb::Load => "load NAME FILE",
            RecipeVerb::Words => "words NAME",
            RecipeVerb::Room => "room IMAGE TABLE",
        })
    }
}

impl fmt::Display for RecipeWanted {
    ghost output = { λ wanted. Some (printed.recipe_name wanted) };

    fn fmt<W: fmt::Write>(&self, f: &mut fmt::Formatter<W>) -> fmt::Result {
        f.write_str(match self {
            RecipeWanted::Name => "the recipe's name",
            RecipeWanted::File => "the file",
            RecipeWanted::ImageRoom => "the image's room",
            RecipeWanted::TableRoom => "the work table's room",
        })
    }
}

impl Kind for RecipeWanted {
    ghost kind_words = { printed.recipe_kind };

    fn kind(&self) -> &'static str {
        match self {
            RecipeWanted::Name => "a word of at most 32 bytes",
            RecipeWanted::File => "a word",
            RecipeWanted::ImageRoom | RecipeWanted::TableRoom => "a whole number, at most 100000",
        }
    }
}

impl<V: fmt::Display, W: fmt::Display + Kind> fmt::Display for Misread<V, W> {
    ghost output = { printed.misread V.output W.Display.output W.Kind.kind_words };

    fn fmt<X: fmt::Write>(&self, f: &mut fmt::Formatter<X>) -> fmt::Result {
        match self {
            Misread::Missing(verb, wanted) => write!(
                f,
                "not understood: {wanted} is missing; write {verb}"
            ),
            Misread::Wrong(verb, wanted) => write!(
                f,
                "not understood: {wanted} is to be {}; write {verb}",
                wanted.kind()
            ),
            Misread::TooMany(verb) => write!(f, "not understood: a word too many; write {verb}"),
        }
    }
}

impl fmt::Display for Misreading {
    ghost output = { printed.misreading };

    fn fmt<W: fmt::Write>(&self, f: &mut fmt::Formatter<W>) -> fmt::Result {
        match self {
            Misreading::UnknownCommand => write!(
                f,
                "not understood: no such command; --help lists the commands"
            ),
            Misreading::Arguments(misread) => write!(f, "{misread}"),
        }
    }
}

impl fmt::Display for ParseError {
    ghost output = { printed.parse_error };

    fn fmt<W: fmt::Write>(&self, f: &mut fmt::Formatter<W>) -> fmt::Result {
        match self {
            ParseError::Misread(misreading) => write!(f, "{misreading}"),
            ParseError::Memory(refused) => write!(f, "{refused}"),
        }
    }
}

impl Error for Misread<Verb, Wanted> {}

impl Error for Misread<RecipeVerb, RecipeWanted> {}

impl Error for Misreading {}

impl Error for ParseError {}
