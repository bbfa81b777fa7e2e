// Weights of several channels added up, in any arithmetic and over any source of readings.
#![tactic(auto)]

mod fault;
mod totals;

pub use fault::{TotalFault, WeighingFault};
pub use totals::total;
