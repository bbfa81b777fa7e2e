// The machine that runs images: the types that its definitions and its code share. What it does is in specs/.
#![tactic(auto)]

mod decode;
mod fault;
mod theorems;
mod types;

pub use decode::head_count;
pub use fault::{ChannelFault, EngineFault, Fault, Layer, RunFault};
pub use types::{Effect, Instruction, Registers, Return, Status};
