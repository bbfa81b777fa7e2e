// A weight carries its bound in its type, so that no call has to ask for it.
ghost use Rattle.std.specs.Prelude.{◌≡◌, ◌≤◌, pos, unsigned_abs};
ghost use Rattle.std.specs.Option.{option_map};
ghost use Rattle.weight.specs.Limit.{limit, weighed};

// The most grams of a weight, on either side of zero.
const LIMIT: i32 = 268_435_455;

// Whole grams from -268,435,455 to 268,435,455.
#[derive(Clone, Copy, PartialEq, Eq, Debug)]
pub struct Weight {
    grams: i32,
    ghost within: { unsigned_abs grams ≤ limit },
}

impl Weight {
    // The weight of so many grams, or None beyond the limit.
    pub fn new(grams: i32) -> Option<Weight>
        ensures { option_map (λ w. w.grams) result ≡ weighed grams }
    {
        if (-LIMIT..=LIMIT).contains(&grams) {
            Some(Weight { grams })
        } else {
            None
        }
    }

    // No grams.
    pub fn zero() -> Weight
        ensures { result.grams ≡ pos 0 }
    {
        Weight { grams: 0 }
    }

    pub fn grams(self) -> i32
        ensures { result ≡ self.grams }
    {
        self.grams
    }
}
