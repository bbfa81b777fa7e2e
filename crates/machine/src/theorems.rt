// Words and steps worked by hand, the words that a recipe's image is made of, and the laws of steps. Nothing calls these:
// their contracts have the prover show them.
ghost use Rattle.machine.specs.Encoded.{Encoded};
ghost use Rattle.machine.specs.Laws.{Laws};
ghost use Rattle.machine.specs.Worked.{Worked};

use arithmetic::Arithmetic;

pub(crate) fn examples_stand()
    ensures { Worked }
{}

pub(crate) fn encoded_words_decode()
    ensures { Encoded }
{}

pub(crate) fn steps_keep_laws<N: Arithmetic>()
    ensures { Laws N.Arithmetic.rules }
{}
