// A run's state. Its bounds stand in its type, so that no call has to ask for them.
ghost use Rattle.std.specs.Prelude.{◌≡◌, ◌<◌, ◌≤◌};
ghost use Rattle.machine.specs.declared.types.Status.TheVariants.{Going};
ghost use Rattle.machine.specs.Steps.{Sound, frame_room};

use machine::{Registers, Status};

#[derive(Clone, Copy)]
pub struct Run {
    pub(crate) registers: Registers,
    pub(crate) used: u64,
    pub(crate) allowance: u64,
    pub(crate) status: Status,
    pub(crate) count: usize,
    ghost sound: { Sound frame_room registers },
    ghost left: { (status ≡ Going → used < allowance) },
    ghost short: { count ≤ 4096 },
}
