// Recipe text: its tokens, its grammar, its rules and its image. The definitions are in specs/.
#![tactic(auto)]

mod cause;
mod worked;

pub use cause::{Cause, Refusal};

// The operators: + - * and div.
#[derive(Clone, Copy, PartialEq, Eq, Debug)]
pub enum Op {
    Plus,
    Minus,
    Times,
    Over,
}

// The reserved words and signs that are no operator.
#[derive(Clone, Copy, PartialEq, Eq, Debug)]
pub enum Word {
    Let,
    In,
    Ifp,
    Then,
    Else,
    Weigh,
    Open,
    Close,
    Comma,
    Equals,
}
