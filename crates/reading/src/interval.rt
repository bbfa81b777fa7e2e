// The interval of a display carries its rule in its type, so that no division has to ask for it.
ghost use Rattle.std.specs.Prelude.{◌≡◌, true};
ghost use Rattle.std.specs.Result.{result_map_both};
ghost use Rattle.reading.specs.Drops.{Dropped, dropped};
ghost use Rattle.reading.specs.Intervals.{Rule, interval_setting, lawful_interval};

use crate::refusal::SettingRefusal;
use weight::Weight;

// 1, 2 or 5 times a power of ten, and at most 50,000 grams.
#[derive(Clone, Copy, PartialEq, Eq, Debug)]
pub struct Interval {
    grams: u32,
    ghost lawful: { lawful_interval grams ≡ true },
}

impl Interval {
    #[tactic(auto, using(crate::proofs::Rounds::rule))]
    pub fn new(d: u32) -> Result<Interval, SettingRefusal>
        ensures answer { result_map_both (λ i. i.grams) (λ e. e) result ≡ interval_setting d }
        ensures rule { Rule d }
    {
        if matches!(
            d,
            1 | 2 | 5 | 10 | 20 | 50 | 100 | 200 | 500 | 1000 | 2000 | 5000 | 10000 | 20000 | 50000
        ) {
            Ok(Interval { grams: d })
        } else {
            Err(SettingRefusal::BadInterval)
        }
    }

    // The division of whole numbers drops the part of a step toward zero.
    pub fn dropped(self, weight: Weight) -> Weight
        ensures value { result.grams ≡ dropped self.grams weight.grams }
        ensures rule { Dropped self.grams weight.grams result.grams }
    {
        let d = self.grams as i32;
        Weight::new(weight.grams() / d * d).unwrap()
    }
}

impl Default for Interval {
    ghost is_default = { λ i. i.grams ≡ 1 };

    // At one gram every whole gram is shown.
    fn default() -> Interval {
        Interval { grams: 1 }
    }
}
