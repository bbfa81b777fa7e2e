// What a source of readings promises.
ghost use Rattle.std.specs.Prelude.{◌≡◌, ℕ};
ghost use Rattle.reading.specs.Answers.{Lawful, Reading, grams_of};

use crate::fault::ReadingFault;
use weight::Weight;

// A source has one answer for each channel, and a question changes nothing.
pub trait ReadingSource {
    ghost answers: { Self → ℕ → Reading };

    fn ask(&self, channel: u32) -> Result<Weight, ReadingFault>
        ensures { grams_of result ≡ answers self.now channel };

    ghost lawful: { (s : Self) → Lawful (answers s) };
}

// A lent source means what the source means, so that a layer can stand over one that another owns.
impl<S: ReadingSource> ReadingSource for &S {
    ghost answers = { λ s. S.ReadingSource.answers s.now };

    ghost lawful = { λ s. S.ReadingSource.lawful s.now };

    fn ask(&self, channel: u32) -> Result<Weight, ReadingFault> {
        (**self).ask(channel)
    }
}
