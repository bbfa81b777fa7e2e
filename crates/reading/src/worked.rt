// Worked readings. Nothing calls this: its contract has the prover compute them.
ghost use Rattle.reading.specs.Worked.{Worked};

pub(crate) fn examples_stand()
    ensures { Worked }
{}
