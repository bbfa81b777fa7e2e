// Recipes worked through. Nothing calls this: its contract has the prover compute them.
#![tactic(auto)]

ghost use Rattle.worked.specs.Worked.{Worked};

pub(crate) fn examples_stand()
    ensures { Worked }
{}
