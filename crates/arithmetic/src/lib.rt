// What an arithmetic is: values in places of memory, and seven rules over them.
#![tactic(auto)]

mod fault;
mod rules;

pub use fault::ArithmeticFault;
pub use rules::Arithmetic;
