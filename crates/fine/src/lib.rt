// Fine: grams with a fraction, binary64 numbers of magnitude at most 2,147,483,647.
#![tactic(auto)]

ghost use Rattle.std.specs.Prelude.{◌≡◌};
ghost use Rattle.fine.specs.OfFine.{is_value, counted, answered, divided, fine_rules};
ghost use Rattle.fine.specs.Laws.{fine_lawful};

use arithmetic::{Arithmetic, ArithmeticFault};
use std::num::saturating_f64_to_i32;
use weight::Weight;

// The largest magnitude of a value, in grams.
const LARGEST: f64 = 2_147_483_647.0;

// A place of 64 bits, with no bound in its type: each rule tests the bound itself. What is no value (a NaN, an
// infinity, a larger magnitude) counts as 0.
#[derive(Clone, Copy, PartialEq, Debug)]
pub struct Fine {
    pub grams: f64,
}

// False at a NaN, since every comparison with one is.
#[tactic(auto, using(crate::proofs::Constants::largest_is))]
fn within(x: f64) -> bool
    ensures { result ≡ is_value x }
{
    x.abs() <= LARGEST
}

#[tactic(auto, using(crate::proofs::Constants::naught_is))]
impl Fine {
    // What the place counts as.
    fn number(self) -> f64
        ensures { result ≡ counted self }
    {
        if within(self.grams) { self.grams } else { 0.0 }
    }

    // The rounded result of an operation, unless it is beyond the values.
    fn of(number: f64) -> Result<Fine, ArithmeticFault>
        ensures { result ≡ answered number }
    {
        if within(number) {
            Ok(Fine { grams: number })
        } else {
            Err(ArithmeticFault::OutOfRange)
        }
    }

    // A divisor of 0, +0.0 or -0.0, is judged before the range.
    fn quotient(number: f64, divisor: f64) -> Result<Fine, ArithmeticFault>
        ensures { result ≡ divided number divisor }
    {
        if divisor == 0.0 {
            Err(ArithmeticFault::DivisorZero)
        } else {
            Fine::of(number / divisor)
        }
    }
}

impl Arithmetic for Fine {
    ghost rules = { fine_rules };

    ghost lawful = { fine_lawful };

    fn whole(weight: Weight) -> Fine {
        Fine {
            grams: f64::from(weight.grams()),
        }
    }

    fn plus(self, other: Fine) -> Result<Fine, ArithmeticFault> {
        Fine::of(self.number() + other.number())
    }

    fn minus(self, other: Fine) -> Result<Fine, ArithmeticFault> {
        Fine::of(self.number() - other.number())
    }

    fn times(self, other: Fine) -> Result<Fine, ArithmeticFault> {
        Fine::of(self.number() * other.number())
    }

    fn over(self, other: Fine) -> Result<Fine, ArithmeticFault> {
        Fine::quotient(self.number(), other.number())
    }

    #[tactic(auto, using(crate::proofs::Constants::naught_is))]
    fn positive(self) -> bool {
        self.number() > 0.0
    }

    fn shown(self) -> i32 {
        saturating_f64_to_i32(self.number())
    }
}
