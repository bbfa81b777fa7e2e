// Compilation of recipe text.
#![tactic(auto)]

mod stages;

pub use stages::{IMAGE_WORDS, TABLE_WORDS, compile};
