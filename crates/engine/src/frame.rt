// A frame, with all that a word in it can ask for.
ghost use Rattle.std.specs.Prelude.{◌<◌, ◌≤◌, length};
ghost use Rattle.machine.specs.Steps.{Sound, deepest, frame_room};

use machine::{Registers, Return};
use reading::ReadingFault;
use weight::Weight;

// A station's readings, channel 1 first.
pub type Held = [Result<Weight, ReadingFault>; 64];

// Where a run stands at one of its words: its registers, the values of its frame, the entries of its calls, the station's
// readings, and the number of the image's words.
#[derive(Drop)]
pub(crate) struct Frame<'a, N> {
    pub(crate) registers: Registers,
    pub(crate) values: &'a [N],
    pub(crate) returns: &'a [Return],
    pub(crate) held: &'a Held,
    pub(crate) count: usize,
    ghost sound: { Sound frame_room registers },
    ghost within: { registers.index < 4096 },
    ghost room: { frame_room ≤ length values.now },
    ghost table: { deepest ≤ length returns.now },
}
