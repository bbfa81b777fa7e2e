// Old: whole grams in 32 bits of two's complement, results taken modulo 2^32.
#![tactic(auto)]

ghost use Rattle.std.specs.Prelude.{◌≡◌, ◌+ℤ◌, ◌-ℤ◌, ◌*ℤ◌, IfOk, int_div};
ghost use Rattle.old.specs.OfOld.{old_rules};
ghost use Rattle.old.specs.Modulo.{Wraps};
ghost use Rattle.std.proofs.Common.{rules};

use arithmetic::{Arithmetic, ArithmeticFault};
use weight::Weight;

// A place of 32 bits; every number in it is a value.
#[derive(Clone, Copy, PartialEq, Eq, Debug)]
pub struct Old {
    pub grams: i32,
}

// Beside the rule, each operation promises that its answer is the one number in range that is congruent modulo 2^32
// to the exact sum, difference or product, or to the quotient with its fraction dropped.
#[tactic(auto, using(std::proofs::lemmas::Int::wraps))]
impl Arithmetic for Old {
    ghost rules = { old_rules };

    ghost lawful = { Prim.search rules };

    fn whole(weight: Weight) -> Old {
        Old {
            grams: weight.grams(),
        }
    }

    fn plus(self, other: Old) -> Result<Old, ArithmeticFault>
        ensures rule { result ≡ old_rules.plus self other }
        ensures congruent { IfOk result (λ v. Wraps (self.grams +ℤ other.grams) v.grams) }
    {
        Ok(Old {
            grams: self.grams.wrapping_add(other.grams),
        })
    }

    fn minus(self, other: Old) -> Result<Old, ArithmeticFault>
        ensures rule { result ≡ old_rules.minus self other }
        ensures congruent { IfOk result (λ v. Wraps (self.grams -ℤ other.grams) v.grams) }
    {
        Ok(Old {
            grams: self.grams.wrapping_sub(other.grams),
        })
    }

    fn times(self, other: Old) -> Result<Old, ArithmeticFault>
        ensures rule { result ≡ old_rules.times self other }
        ensures congruent { IfOk result (λ v. Wraps (self.grams *ℤ other.grams) v.grams) }
    {
        Ok(Old {
            grams: self.grams.wrapping_mul(other.grams),
        })
    }

    fn over(self, other: Old) -> Result<Old, ArithmeticFault>
        ensures rule { result ≡ old_rules.over self other }
        ensures congruent { IfOk result (λ v. Wraps (int_div self.grams other.grams) v.grams) }
    {
        if other.grams == 0 {
            return Err(ArithmeticFault::DivisorZero);
        }
        Ok(Old {
            grams: self.grams.wrapping_div(other.grams),
        })
    }

    fn positive(self) -> bool {
        self.grams > 0
    }

    fn shown(self) -> i32 {
        self.grams
    }
}
