// What the calls of a shelf answer and make of it.
ghost use Rattle.std.specs.Prelude.{◌≡◌};
ghost use Rattle.std.specs.Option.{option_map};
ghost use Rattle.shelf.specs.Kept.{Compiles, at_first, full, kept_by, with_room, words_of};

use crate::errors::{CompileError, NotKept};
use crate::kept::{Recipe, Room, Shelf};
use compiler::compile;
use std::alloc::Global;
use std::collections::BTreeMap;

const MOST_RECIPES: usize = 100;

impl Shelf {
    // No recipe, and room for 4,096 words of image and 2,000 of work table.
    pub fn new(heap: Global) -> Shelf
        ensures { kept_by result ≡ at_first }
    {
        Shelf {
            recipes: BTreeMap::new(heap),
            room: Room {
                image: 4096,
                table: 2000,
            },
        }
    }

    // How many words of image and work table the next compiles are lent.
    pub fn set_room(&mut self, room: Room)
        ensures { kept_by self.new ≡ with_room (kept_by self.old) room }
    {
        self.room = room;
    }

    // The words of the recipe with that name.
    pub fn image(&self, name: &[u8]) -> Option<&[u32]>
        ensures { option_map (λ x. x.now) result ≡ words_of name.now (kept_by self.now) }
    {
        Some(self.recipes.get(name)?.image.as_slice())
    }

    // Whether there is no place for that name.
    fn is_full(&self, name: &[u8]) -> bool
        ensures { result ≡ full name.now (kept_by self.now).recipes }
    {
        self.recipes.len() >= MOST_RECIPES && !self.recipes.contains_key(name)
    }

    // A text that is accepted is kept under the name, in place of what it had: how many words its image has. Else nothing changes.
    pub fn compile(
        &mut self,
        heap: Global,
        name: Vec<u8>,
        text: Vec<u8>,
    ) -> Result<usize, CompileError>
        ensures { Compiles name.items text.items (kept_by self.old) result (kept_by self.new) }
    {
        if self.is_full(&name) {
            return Err(NotKept::TooManyRecipes.into());
        }
        let mut image = vec![in heap; 0; self.room.image as usize]?;
        let mut table = vec![in heap; 0; self.room.table as usize]?;
        let words = match compile(&text, &mut image, &mut table) {
            Ok(words) => words,
            Err(refusal) => return Err(NotKept::Refused { refusal, text }.into()),
        };
        image.truncate(words);
        self.recipes.insert(name, Recipe { text, image })?;
        Ok(words)
    }
}
