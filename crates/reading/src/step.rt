// A layer that shows the weight below it in steps of an interval.
ghost use Rattle.std.specs.Prelude.{◌≡◌, ℕ, Ok};
ghost use Rattle.reading.specs.Drops.{dropped};
ghost use Rattle.reading.specs.OfStep.{step_answers, step_setting, stepped};
ghost use Rattle.reading.specs.Settings.{after};
ghost use Rattle.reading.specs.Laws.{step_held, step_leaves};

use crate::fault::ReadingFault;
use crate::interval::Interval;
use crate::layer::{Adjustment, Layer};
use crate::refusal::SettingRefusal;
use crate::source::ReadingSource;
use weight::Weight;

// One interval serves every channel.
pub type Step<S> = Layer<S, Interval>;

impl Adjustment for Interval {
    ghost adjusted = { λ i _ z. Ok (dropped i.grams z) };

    ghost held = { λ i _. step_held i.grams };

    ghost leaves = { λ i _. step_leaves i.grams };

    fn adjust(&self, _channel: u32, weight: Weight) -> Result<Weight, ReadingFault> {
        Ok(self.dropped(weight))
    }
}

impl<S: ReadingSource> Layer<S, Interval> {
    pub fn set(&mut self, d: u32) -> Result<(), SettingRefusal>
        ensures answer { result ≡ step_setting d }
        ensures interval { self.new.setting.grams ≡ after result self.old.setting.grams d }
        ensures below { self.new.below ≡ self.old.below }
        ensures meaning { (k : ℕ) → step_answers S.ReadingSource.answers self.new k
            ≡ after result (step_answers S.ReadingSource.answers self.old k) (stepped d (S.ReadingSource.answers self.old.below k)) }
    {
        self.setting = Interval::new(d)?;
        Ok(())
    }
}
