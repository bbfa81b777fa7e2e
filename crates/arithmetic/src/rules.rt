// The seven rules of an arithmetic. Code that counts grams is generic over this trait and knows nothing else.
ghost use Rattle.std.specs.Prelude.{◌≡◌};
ghost use Rattle.arithmetic.specs.Rules.{Rules, Lawful};

use crate::fault::ArithmeticFault;
use weight::Weight;

pub trait Arithmetic: Copy {
    // The values, and what each rule answers: a function of the places given to it, and of nothing else.
    ghost rules: { Rules Self };

    // A weight as a value; never a fault.
    fn whole(weight: Weight) -> Self
        ensures { result ≡ rules.whole weight.grams };

    fn plus(self, other: Self) -> Result<Self, ArithmeticFault>
        ensures { result ≡ rules.plus self other };

    fn minus(self, other: Self) -> Result<Self, ArithmeticFault>
        ensures { result ≡ rules.minus self other };

    fn times(self, other: Self) -> Result<Self, ArithmeticFault>
        ensures { result ≡ rules.times self other };

    // This value divided by the other.
    fn over(self, other: Self) -> Result<Self, ArithmeticFault>
        ensures { result ≡ rules.over self other };

    // Whether the value is greater than zero.
    fn positive(self) -> bool
        ensures { result ≡ rules.positive self };

    // The value in whole grams, as a display shows it.
    fn shown(self) -> i32
        ensures { result ≡ rules.shown self };

    ghost lawful: { Lawful rules };
}
