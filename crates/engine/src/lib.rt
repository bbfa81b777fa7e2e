// Runs images: one text for every arithmetic, on any words and any contents of the memory that it is lent.
#![tactic(auto)]

mod advance;
mod frame;
mod memory;
mod run;
mod step;
mod words;

pub use frame::Held;
pub use run::Run;
