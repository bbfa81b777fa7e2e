// A sitting: a session's lines and its recipes that are compiled, and the answer to each line.
#![tactic(auto)]

mod lines;
mod words;

pub use lines::{Reply, Session};
