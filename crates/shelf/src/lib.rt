// Recipes by their names: a text that compiles is kept with its image.
#![tactic(auto)]

mod calls;
mod errors;
mod kept;

pub use errors::{CompileError, NotKept};
pub use kept::{Recipe, Room, Shelf};
