// The lines about recipes: those whose first word names such a command, and the line that ends a text.
ghost use Rattle.std.specs.Prelude.{◌≡◌};
ghost use Rattle.command.specs.Words.{later};
ghost use Rattle.command.specs.Left.{left};
ghost use Rattle.command.specs.Arguments.{argument, heard};
ghost use Rattle.command.specs.OfRecipes.{arguments, ends_text, line_meant, name_in, outcome, recipe_line, recipe_verb, room_in};
ghost use Rattle.command.specs.declared.recipes.RecipeWanted.TheVariants as the;

use crate::arguments::{Arguments, FromWord};
use crate::misread::Misread;
use crate::numbers::value;
use crate::words::Words;

// The commands about recipes, each by its name.
#[derive(Clone, Copy, PartialEq, Eq, Debug)]
pub enum RecipeVerb {
    Recipe,
    Load,
    Words,
    Room,
}

// What such a command wants at a place among its arguments.
#[derive(Clone, Copy, PartialEq, Eq, Debug)]
pub enum RecipeWanted {
    Name,
    File,
    ImageRoom,
    TableRoom,
}

// Why a line with such a command is not understood.
pub type RecipeMisreading = Misread<RecipeVerb, RecipeWanted>;

#[derive(Clone, Copy, PartialEq, Eq, Debug)]
pub enum RecipeCommand<'a> {
    // The lines that follow are the text of the recipe with this name.
    Text(&'a [u8]),
    Load { name: &'a [u8], file: &'a [u8] },
    Words(&'a [u8]),
    Room { image: u32, table: u32 },
}

// So many words of room.
#[derive(Clone, Copy, PartialEq, Eq, Debug)]
pub(crate) struct Room {
    words: u32,
}

const LONGEST_NAME: usize = 32;

const MOST_ROOM: u32 = 100_000;

impl FromWord for RecipeVerb {
    ghost read = { recipe_verb };

    fn from_word(word: &[u8]) -> Option<RecipeVerb> {
        match word {
            b"recipe" => Some(RecipeVerb::Recipe),
            b"load" => Some(RecipeVerb::Load),
            b"words" => Some(RecipeVerb::Words),
            b"room" => Some(RecipeVerb::Room),
            _ => None,
        }
    }
}

impl FromWord for Room {
    ghost read = { room_in };

    fn from_word(word: &[u8]) -> Option<Room> {
        value(word, MOST_ROOM).map(|words| Room { words })
    }
}

fn next_name<'a>(rest: &mut Arguments<'a, RecipeVerb>) -> Result<&'a [u8], RecipeMisreading>
    ensures value { heard result ≡ argument rest.old.verb the.Name name_in (left rest.old.words) }
    ensures rest { left rest.new.words ≡ later (left rest.old.words) }
    ensures verb { rest.new.verb ≡ rest.old.verb }
{
    let name = rest.next_word(RecipeWanted::Name)?;
    if name.len() > LONGEST_NAME {
        return Err(Misread::Wrong(rest.verb, RecipeWanted::Name));
    }
    Ok(name)
}

fn command<'a>(rest: &mut Arguments<'a, RecipeVerb>) -> Result<RecipeCommand<'a>, RecipeMisreading>
    ensures { outcome result ≡ arguments rest.old.verb (left rest.old.words) }
{
    match rest.verb {
        RecipeVerb::Recipe => {
            let name = next_name(rest)?;
            rest.end(RecipeCommand::Text(name))
        }
        RecipeVerb::Load => {
            let name = next_name(rest)?;
            let file = rest.next_word(RecipeWanted::File)?;
            rest.end(RecipeCommand::Load { name, file })
        }
        RecipeVerb::Words => {
            let name = next_name(rest)?;
            rest.end(RecipeCommand::Words(name))
        }
        RecipeVerb::Room => {
            let image: Room = rest.next(RecipeWanted::ImageRoom)?;
            let table: Room = rest.next(RecipeWanted::TableRoom)?;
            rest.end(RecipeCommand::Room {
                image: image.words,
                table: table.words,
            })
        }
    }
}

// Any bytes are a line. None where it has no command about recipes.
pub fn parse_recipe(line: &[u8]) -> Result<Option<RecipeCommand<'_>>, RecipeMisreading>
    ensures { line_meant result ≡ recipe_line line.now }
{
    let mut words = Words::of(line);
    let Some(verb) = words.next_word().and_then(RecipeVerb::from_word) else {
        return Ok(None);
    };
    command(&mut Arguments { words, verb }).map(Some)
}

// Whether a line ends the text of a recipe: its one word is `end`.
pub fn ends_text(line: &[u8]) -> bool
    ensures { result ≡ ends_text line.now }
{
    let mut words = Words::of(line);
    matches!(words.next_word(), Some(b"end")) && words.is_done()
}
