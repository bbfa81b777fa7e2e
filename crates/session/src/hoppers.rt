// The hoppers of a bench: a board with tares and an interval, read through the layers that the pile names.
ghost use Rattle.std.specs.Prelude.{◌≡◌};
ghost use Rattle.reading.specs.OfTare.{grams_each};
ghost use Rattle.session.specs.OfHoppers.{piled};
ghost use Rattle.session.specs.Laws.{piled_lawful};

use command::Pile;
use reading::{Board, ReadingFault, ReadingSource, Step, Tare};
use weight::Weight;

// The settings of all layers are kept, also of a layer that the pile leaves out for now.
#[derive(Drop)]
pub struct Hoppers {
    pub layers: Step<Tare<Board>>,
    pub pile: Pile,
}

impl ReadingSource for Hoppers {
    ghost answers = { λ h. piled h.pile h.layers.below.below.records.items (grams_each h.layers.below.setting.each) h.layers.setting.grams };

    ghost lawful = { λ h. piled_lawful h.pile h.layers.below.below.records.items (grams_each h.layers.below.setting.each) h.layers.setting.grams };

    fn ask(&self, channel: u32) -> Result<Weight, ReadingFault> {
        let board = &self.layers.below.below;
        let stepped = self.layers.same_over(board);
        match self.pile {
            Pile::Board => board.ask(channel),
            Pile::Tare => self.layers.below.ask(channel),
            Pile::Step => stepped.ask(channel),
            Pile::StepTare => self.layers.ask(channel),
            Pile::TareStep => self.layers.below.same_over(stepped).ask(channel),
        }
    }
}
