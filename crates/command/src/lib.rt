// Reads one line of a session: a command with its arguments, or why the line is not understood.
#![tactic(auto)]

ghost use Rattle.command.specs.Laws.{CutIntoWords};
ghost use Rattle.command.specs.Understood.{Parses};

mod arguments;
mod commands;
mod errors;
mod misread;
mod names;
mod numbers;
mod printing;
mod recipes;
mod types;
mod words;
mod worked;

use arguments::{Arguments, FromWord};
use commands::command_of;
pub use misread::Misread;
pub use printing::Kind;
pub use recipes::{
    RecipeCommand, RecipeMisreading, RecipeVerb, RecipeWanted, ends_text, parse_recipe,
};
use std::alloc::Global;
pub use types::{Command, Counting, Load, Misreading, ParseError, Pile, Verb, Wanted};
use words::Words;
pub use words::trimmed;

// Any bytes are a line. None where it is passed over: it has no word, or its first word begins with '#'.
pub fn parse(heap: Global, line: &[u8]) -> Result<Option<Command>, ParseError>
    ensures meaning { Parses line.now result }
    ensures cut { CutIntoWords line.now }
{
    let mut words = Words::of(line);
    let Some(name) = words.next_word() else {
        return Ok(None);
    };
    if name.starts_with(b"#") {
        return Ok(None);
    }
    let verb = Verb::from_word(name).ok_or(Misreading::UnknownCommand)?;
    command_of(heap, &mut Arguments { words, verb }).map(Some)
}
