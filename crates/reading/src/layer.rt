// A layer over a source of readings, which adjusts each weight that comes from below it.
ghost use Rattle.std.specs.Prelude.{◌≡◌, ℕ, ℤ, Ok};
ghost use Rattle.reading.specs.Answers.{Reading, grams_of};
ghost use Rattle.reading.specs.OfLayer.{IsHeld, Leaves, layer_answers};
ghost use Rattle.reading.specs.Laws.{through_lawful};

use crate::fault::ReadingFault;
use crate::source::ReadingSource;
use weight::Weight;

// What a layer makes of the weights below it. It makes no weight beyond the limit, and by default leaves each as it is.
pub trait Adjustment: Copy + Default {
    // What becomes of a weight of so many grams on a channel.
    ghost adjusted: { Self → ℕ → ℤ → Reading };

    fn adjust(&self, channel: u32, weight: Weight) -> Result<Weight, ReadingFault>
        ensures { grams_of result ≡ adjusted self.now channel weight.grams };

    ghost held: { (s : Self) (k : ℕ) → IsHeld (adjusted s k) };

    ghost leaves: { (s : Self) (k : ℕ) → Self.is_default s → Leaves (adjusted s k) };
}

// A source over another: what comes from below is adjusted, but a fault is passed on as it is.
#[derive(PartialEq, Eq, Debug, Drop)]
pub struct Layer<S, A> {
    pub below: S,
    pub(crate) setting: A,
}

impl<S: ReadingSource, A: Adjustment> Layer<S, A> {
    // At first a layer leaves every answer as it is.
    pub fn over(below: S) -> Layer<S, A>
        ensures below { result.below ≡ below }
        ensures setting { A.is_default result.setting }
        ensures meaning { (k : ℕ) → layer_answers S.ReadingSource.answers A.adjusted result k ≡ S.ReadingSource.answers below k }
    {
        Layer {
            below,
            setting: A::default(),
        }
    }

    // The same setting over another source.
    pub fn same_over<T: ReadingSource>(&self, below: T) -> Layer<T, A>
        ensures below { result.below ≡ below }
        ensures setting { result.setting ≡ self.now.setting }
    {
        Layer {
            below,
            setting: self.setting,
        }
    }
}

impl<S: ReadingSource, A: Adjustment> ReadingSource for Layer<S, A> {
    ghost answers = { layer_answers S.ReadingSource.answers A.adjusted };

    ghost lawful = { λ l. through_lawful (S.ReadingSource.answers l.below) (A.adjusted l.setting) (S.ReadingSource.lawful l.below) (A.held l.setting) };

    fn ask(&self, channel: u32) -> Result<Weight, ReadingFault> {
        let weight = self.below.ask(channel)?;
        self.setting.adjust(channel, weight)
    }
}
