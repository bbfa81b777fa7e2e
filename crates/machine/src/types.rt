// The parts of a run.
use crate::fault::RunFault;
use recipe::Op;

// What an image word asks for. A word that asks for nothing that can be done is Bad, and no refusal: it stands in images
// as every other word does, and carrying it out is the impossible fault.
#[derive(Clone, Copy, PartialEq, Eq, Debug)]
pub enum Instruction {
    Num(u32),
    Var(u32),
    Op(Op),
    Out,
    Unless(u32),
    Go(u32),
    // the arity, and the target
    Call(u32, u32),
    Back,
    Weigh(u32),
    Bad,
}

// Where a run stands: the index of its next word, the stack place at which its frame starts, the number of values
// in the frame, and the number of calls that it is inside of.
#[derive(Clone, Copy, PartialEq, Eq, Debug)]
pub struct Registers {
    pub index: usize,
    pub base: usize,
    pub len: usize,
    pub nesting: usize,
}

// An entry of the return table: the caller's base, and the index after its call.
#[derive(Clone, Copy, PartialEq, Eq, Debug)]
pub struct Return {
    pub base: u32,
    pub next: u32,
}

// What a word comes to, before anything is written, each with the registers after it: a value to put at a place of
// the frame; only a move; an entry to save; or the end of the run, with its value.
#[derive(Clone, Copy, PartialEq, Eq, Debug)]
pub enum Effect<V> {
    Put(Registers, usize, V),
    Move(Registers),
    Enter(Registers, Return),
    End(Registers, V),
}

// How a run stands: it goes on; its allowance is used; it ended with a value, as shown; or with a fault.
#[derive(Clone, Copy, PartialEq, Eq, Debug)]
pub enum Status {
    Going,
    Spent,
    Ended(i32),
    Failed(RunFault),
}
