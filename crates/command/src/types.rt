// What a line of a session can say: the commands with their arguments, and why a line is not understood.
use crate::misread::Misread;
use std::alloc::AllocError;

// Which layers stand over the board as a channel is read.
#[derive(Clone, Copy, PartialEq, Eq, Debug)]
pub enum Pile {
    Board,
    Tare,
    Step,
    StepTare,
    TareStep,
}

// By which arithmetic weights are counted.
#[derive(Clone, Copy, PartialEq, Eq, Debug)]
pub enum Counting {
    Gram,
    Old,
    Fine,
}

// The commands, each by its name.
#[derive(Clone, Copy, PartialEq, Eq, Debug)]
pub enum Verb {
    Station,
    Records,
    Put,
    Raw,
    Tare,
    Interval,
    Pile,
    Weigh,
    Total,
    Arithmetic,
}

// What a command wants at a place among its arguments.
#[derive(Clone, Copy, PartialEq, Eq, Debug)]
pub enum Wanted {
    StationNumber,
    Count,
    Channel,
    Grams,
    Mark,
    Interval,
    Pile,
    Arithmetic,
}

// Why a line is not understood.
#[derive(Clone, Copy, PartialEq, Eq, Debug)]
pub enum Misreading {
    UnknownCommand,
    Arguments(Misread<Verb, Wanted>),
}

// Why a line gives no command.
#[derive(Clone, Copy, PartialEq, Eq, Debug)]
pub enum ParseError {
    Misread(Misreading),
    // There is no memory for the list of channels of a total.
    Memory(AllocError),
}

// What lies on a channel. It has its grams at rest and moving, so the mark stands beside them.
#[derive(Clone, Copy, PartialEq, Eq, Debug)]
pub struct Load {
    pub channel: u32,
    pub grams: i32,
    pub at_rest: bool,
}

#[derive(Drop, PartialEq, Eq, Debug)]
pub enum Command {
    Station(u32),
    Records(u32),
    Put(Load),
    Raw(Load),
    Tare { channel: u32, grams: i32 },
    Interval(u32),
    Pile(Pile),
    Weigh(u32),
    Total(Vec<u32>),
    Arithmetic(Counting),
}
