// Weights: whole grams within the limit that every channel, tare and number of a recipe keeps.
#![tactic(auto)]

mod weight;

pub use weight::Weight;
