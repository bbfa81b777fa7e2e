// A session on the bench: hoppers that are set and read, and the answer to each command.
#![tactic(auto)]

mod answer;
mod bench;
mod hoppers;
mod totals;

pub use answer::Answer;
pub use bench::Bench;
pub use hoppers::Hoppers;
pub use totals::total_by;
