// Worked arithmetic. Nothing calls this: its contract has the prover compute it.
ghost use Rattle.trials.specs.Worked.{Worked};

pub(crate) fn examples_stand()
    ensures { Worked }
{}
