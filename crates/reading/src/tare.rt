// A layer that takes each channel's tare from the weight below it.
ghost use Rattle.std.specs.Prelude.{◌≡◌, ℕ, ◌-◌, ◌-ℤ◌, replicate, pos, slice_set};
ghost use Rattle.reading.specs.Answers.{held_to_limit};
ghost use Rattle.reading.specs.OfTare.{grams_each, tare_answers, tare_at, tare_setting, tared};
ghost use Rattle.reading.specs.Settings.{Changes, after};
ghost use Rattle.reading.specs.Laws.{tare_held, tare_leaves};

use crate::answer::{at_channel, held_to_limit, place_of};
use crate::fault::ReadingFault;
use crate::layer::{Adjustment, Layer};
use crate::refusal::SettingRefusal;
use crate::source::ReadingSource;
use weight::Weight;

// The tares of the channels: that of channel k stands at index k - 1.
#[derive(Clone, Copy, PartialEq, Eq, Debug)]
pub struct Tares {
    each: [Weight; 64],
}

impl Tares {
    // No source has a weight outside the channels, so no tare is taken from one there.
    fn of(&self, channel: u32) -> Weight
        ensures { result.grams ≡ tare_at (grams_each self.now.each) channel }
    {
        at_channel(&self.each, channel)
            .copied()
            .unwrap_or(Weight::zero())
    }
}

impl Default for Tares {
    ghost is_default = { λ t. grams_each t.each ≡ replicate 64 (pos 0) };

    // No grams on any channel.
    fn default() -> Tares {
        Tares {
            each: [Weight::zero(); 64],
        }
    }
}

// Each channel has its own tare.
pub type Tare<S> = Layer<S, Tares>;

impl Adjustment for Tares {
    ghost adjusted = { λ t k z. held_to_limit (z -ℤ tare_at (grams_each t.each) k) };

    ghost held = { λ t k. tare_held (grams_each t.each) k };

    ghost leaves = { λ t k. tare_leaves (grams_each t.each) k };

    fn adjust(&self, channel: u32, weight: Weight) -> Result<Weight, ReadingFault> {
        held_to_limit(weight.grams() - self.of(channel).grams())
    }
}

impl<S: ReadingSource> Layer<S, Tares> {
    // A tare is for one of the 64 channels, fitted or not, and is a weight that is not negative.
    pub fn set(&mut self, channel: u32, grams: i32) -> Result<(), SettingRefusal>
        ensures answer { result ≡ tare_setting channel grams }
        ensures tares { grams_each self.new.setting.each ≡ after result (grams_each self.old.setting.each) (slice_set (grams_each self.old.setting.each) (channel - 1) grams) }
        ensures below { self.new.below ≡ self.old.below }
        ensures meaning { Changes (tare_answers S.ReadingSource.answers self.old) (tare_answers S.ReadingSource.answers self.new)
            channel (tared grams (S.ReadingSource.answers self.old.below channel)) result }
    {
        let place = place_of(channel).ok_or(SettingRefusal::NoChannel)?;
        let tare = Weight::new(grams)
            .filter(|tare| tare.grams() >= 0)
            .ok_or(SettingRefusal::BadWeight)?;
        self.setting.each[place] = tare;
        Ok(())
    }
}
