// A pass over a recipe text: reading, limits, names, frames and words in one descent.
#![tactic(auto)]

mod base;
mod chain;
mod cursor;
mod descent;
mod instruction;
mod names;
mod output;
mod passes;

pub use base::Base;
pub use names::Function;
pub use passes::{Pass, over};
