// A session: the bench and the recipes, line by line.
ghost use Rattle.std.specs.Prelude.{◌≡◌, is_some, IfOk, None, OnOk};
ghost use Rattle.command.specs.OfRecipes.{bid};
ghost use Rattle.shelf.specs.Kept.{answer};
ghost use Rattle.sitting.specs.Sittings.{Bids, GoesOn, Hears, Loads, Sits, Tells, Weighs, at_first, lengthened, draft_of, sitting_of};

use command::{RecipeCommand, RecipeMisreading, ends_text, parse_recipe};
use session::{Answer, Bench};
use shelf::{CompileError, NotKept, Room, Shelf};
use std::alloc::{AllocError, Global};

// The text of a recipe that is being written, each line with a line feed after it.
#[derive(PartialEq, Eq, Debug, Drop)]
pub(crate) struct Draft {
    name: Vec<u8>,
    text: Vec<u8>,
}

#[derive(Drop)]
pub struct Session {
    bench: Bench,
    shelf: Shelf,
    draft: Option<Draft>,
}

// What a line is answered.
#[derive(PartialEq, Eq, Debug, Drop)]
pub enum Reply<'a> {
    Bench(Answer),
    // A recipe is kept: how many words its image has.
    Accepted(usize),
    NotKept(NotKept),
    Words(Vec<u32>),
    NoRecipe,
    // The file is wanted: its bytes are to be given to `load`.
    File { name: &'a [u8], file: &'a [u8] },
    NotUnderstood(RecipeMisreading),
}

// What a compile is answered. Memory that runs out is no answer.
fn answered(compiled: Result<usize, CompileError>) -> Result<Reply<'static>, AllocError>
    ensures { Tells (answer compiled) result }
{
    match compiled {
        Ok(words) => Ok(Reply::Accepted(words)),
        Err(CompileError::NotKept(reason)) => Ok(Reply::NotKept(reason)),
        Err(CompileError::Memory(refused)) => Err(refused),
    }
}

impl Draft {
    // One line more.
    fn lengthen(&mut self, line: &[u8]) -> Result<(), AllocError>
        ensures { OnOk result (draft_of self.new ≡ lengthened (draft_of self.old) line.now) }
    {
        self.text.extend_from_slice(line)?;
        self.text.push(b'\n')?;
        Ok(())
    }
}

impl Session {
    // A new bench, and no recipe.
    pub fn new(heap: Global) -> Result<Session, AllocError>
        ensures { IfOk result (λ s. sitting_of s ≡ at_first) }
    {
        Ok(Session {
            bench: Bench::new(heap)?,
            shelf: Shelf::new(heap),
            draft: None,
        })
    }

    // Whether a text has begun and not ended.
    pub fn has_draft(&self) -> bool
        ensures { result ≡ is_some (sitting_of self.now).draft }
    {
        self.draft.is_some()
    }

    // A line while a text is being written: it ends the text, or is a line of it.
    fn go_on(
        &mut self,
        heap: Global,
        mut draft: Draft,
        line: &[u8],
    ) -> Result<Option<Reply<'static>>, AllocError>
        requires { self.old.draft ≡ None }
        ensures { GoesOn (draft_of draft) line.now (sitting_of self.old) result (sitting_of self.new) }
    {
        if ends_text(line) {
            let Draft { name, mut text } = draft;
            let _ = text.pop();
            return answered(self.shelf.compile(heap, name, text)).map(Some);
        }
        draft.lengthen(line)?;
        self.draft = Some(draft);
        Ok(None)
    }

    fn obey<'a>(
        &mut self,
        heap: Global,
        command: RecipeCommand<'a>,
    ) -> Result<Option<Reply<'a>>, AllocError>
        ensures { Bids (bid command.entry) (sitting_of self.old) result (sitting_of self.new) }
    {
        match command {
            RecipeCommand::Text(name) => {
                let name = Vec::from_slice(heap, name)?;
                self.draft = Some(Draft {
                    name,
                    text: Vec::new(heap),
                });
                Ok(None)
            }
            RecipeCommand::Load { name, file } => Ok(Some(Reply::File { name, file })),
            RecipeCommand::Words(name) => match self.shelf.image(name) {
                Some(image) => Ok(Some(Reply::Words(Vec::from_slice(heap, image)?))),
                None => Ok(Some(Reply::NoRecipe)),
            },
            RecipeCommand::Room { image, table } => {
                self.shelf.set_room(Room { image, table });
                Ok(Some(Reply::Bench(Answer::Done)))
            }
        }
    }

    // A line that has no command about recipes.
    fn weigh(&mut self, heap: Global, line: &[u8]) -> Result<Option<Reply<'static>>, AllocError>
        ensures { Weighs line.now (sitting_of self.old) result (sitting_of self.new) }
    {
        let Some(answer) = self.bench.take(heap, line)? else {
            return Ok(None);
        };
        Ok(Some(Reply::Bench(answer)))
    }

    // A line while no text is being written.
    fn hear<'a>(&mut self, heap: Global, line: &'a [u8]) -> Result<Option<Reply<'a>>, AllocError>
        ensures { Hears line.now (sitting_of self.old) result (sitting_of self.new) }
    {
        match parse_recipe(line) {
            Ok(Some(command)) => self.obey(heap, command),
            Ok(None) => self.weigh(heap, line),
            Err(misreading) => Ok(Some(Reply::NotUnderstood(misreading))),
        }
    }

    // One line of a session, without its line feed: None where it is passed over or belongs to a text. Where memory runs
    // out, a text that is being written is let go and nothing else has changed.
    pub fn take<'a>(
        &mut self,
        heap: Global,
        line: &'a [u8],
    ) -> Result<Option<Reply<'a>>, AllocError>
        ensures { Sits line.now (sitting_of self.old) result (sitting_of self.new) }
    {
        match self.draft.take() {
            Some(draft) => self.go_on(heap, draft, line),
            None => self.hear(heap, line),
        }
    }

    // The text that a file has, for the recipe with that name.
    pub fn load(
        &mut self,
        heap: Global,
        name: &[u8],
        text: Vec<u8>,
    ) -> Result<Reply<'static>, AllocError>
        ensures { Loads name.now text.items (sitting_of self.old) result (sitting_of self.new) }
    {
        let name = Vec::from_slice(heap, name)?;
        answered(self.shelf.compile(heap, name, text))
    }
}
