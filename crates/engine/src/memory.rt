// What a run reads, and the memory that is lent to it.
ghost use Rattle.std.specs.Prelude.{◌≤◌, length};
ghost use Rattle.machine.specs.Steps.{Sound, deepest, frame_room};

use crate::frame::Held;
use machine::{Registers, Return};

// The words of an image, as many as its HEAD counts, and the station's readings.
#[derive(Drop)]
pub(crate) struct Program<'a> {
    pub(crate) image: &'a [u32],
    pub(crate) held: &'a Held,
    ghost short: { length image.now ≤ 4096 },
}

// The memory lent to a run, and where the run stands in it.
#[derive(Drop)]
pub(crate) struct Memory<'a, N> {
    pub(crate) registers: Registers,
    pub(crate) stack: &'a mut [N],
    pub(crate) returns: &'a mut [Return],
    ghost sound: { Sound frame_room registers },
    ghost room: { 4128 ≤ length stack.now },
    ghost table: { deepest ≤ length returns.now },
}
