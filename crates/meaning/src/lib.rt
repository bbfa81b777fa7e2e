// What recipes mean, and that their images do just that. The definitions and the theorems are in specs/.
#![tactic(auto)]

ghost use Rattle.meaning.specs.Theorem.{FoundExactly, Headed, LimitHarmless, Runs, SplitAlike};

use arithmetic::Arithmetic;

// Nothing calls this: its contract has the theorems proved, for every arithmetic.
pub(crate) fn recipes_run<N: Arithmetic>()
    ensures found { FoundExactly }
    ensures headed { Headed }
    ensures limit { LimitHarmless N.Arithmetic.rules }
    ensures runs { Runs N.Arithmetic.rules }
    ensures split { SplitAlike N.Arithmetic.rules }
{}
