// Gram: whole grams from -2,147,483,647 to 2,147,483,647; a result beyond is out of range.
#![tactic(auto)]

ghost use Rattle.std.specs.Prelude.{◌≡◌};
ghost use Rattle.gram.specs.OfGram.{counted, checked, divided, gram_rules};
ghost use Rattle.std.proofs.Common.{rules};

use arithmetic::{Arithmetic, ArithmeticFault};
use weight::Weight;

// A place of 32 bits. The one number that is no value, -2,147,483,648, counts as 0.
#[derive(Clone, Copy, PartialEq, Eq, Debug)]
pub struct Gram {
    pub grams: i32,
}

impl Gram {
    // What the place counts as.
    fn number(self) -> i32
        ensures { result ≡ counted self }
    {
        if self.grams == i32::MIN {
            0
        } else {
            self.grams
        }
    }

    // The result of an operation of 32 bits, None where that overflows.
    fn of(number: Option<i32>) -> Result<Gram, ArithmeticFault>
        ensures { result ≡ checked number }
    {
        match number {
            Some(i32::MIN) | None => Err(ArithmeticFault::OutOfRange),
            Some(grams) => Ok(Gram { grams }),
        }
    }

    // A divisor of 0 is judged before the range.
    fn quotient(number: i32, divisor: i32) -> Result<Gram, ArithmeticFault>
        ensures { result ≡ divided number divisor }
    {
        if divisor == 0 {
            return Err(ArithmeticFault::DivisorZero);
        }
        Gram::of(number.checked_div(divisor))
    }
}

impl Arithmetic for Gram {
    ghost rules = { gram_rules };

    ghost lawful = { Prim.search rules };

    fn whole(weight: Weight) -> Gram {
        Gram {
            grams: weight.grams(),
        }
    }

    fn plus(self, other: Gram) -> Result<Gram, ArithmeticFault> {
        Gram::of(self.number().checked_add(other.number()))
    }

    fn minus(self, other: Gram) -> Result<Gram, ArithmeticFault> {
        Gram::of(self.number().checked_sub(other.number()))
    }

    fn times(self, other: Gram) -> Result<Gram, ArithmeticFault> {
        Gram::of(self.number().checked_mul(other.number()))
    }

    fn over(self, other: Gram) -> Result<Gram, ArithmeticFault> {
        Gram::quotient(self.number(), other.number())
    }

    fn positive(self) -> bool {
        self.number() > 0
    }

    fn shown(self) -> i32 {
        self.number()
    }
}
