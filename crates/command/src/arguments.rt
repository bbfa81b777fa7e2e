// The arguments of a command, one after another.
ghost use Rattle.std.specs.Prelude.{◌≡◌, ℕ, List, Option};
ghost use Rattle.command.specs.Words.{later};
ghost use Rattle.command.specs.Left.{left};
ghost use Rattle.command.specs.Arguments.{argument, ended, heard, sole, word_in};

use crate::misread::Misread;
use crate::words::Words;

// A value that a word is read as.
pub(crate) trait FromWord: Sized {
    // What a word means where such a value is wanted.
    ghost read: { List ℕ → Option Self };

    fn from_word(word: &[u8]) -> Option<Self>
        ensures { result ≡ read word.now };
}

// The words that are left after a command's name, and which command it is.
#[derive(Drop)]
pub(crate) struct Arguments<'a, V> {
    pub words: Words<'a>,
    pub verb: V,
}

impl<'a, V: Copy> Arguments<'a, V> {
    // The next word, whatever it says.
    pub(crate) fn next_word<W>(&mut self, wanted: W) -> Result<&'a [u8], Misread<V, W>>
    where
        W: Drop,
        ensures value { heard result ≡ argument self.old.verb wanted word_in (left self.old.words) }
        ensures rest { left self.new.words ≡ later (left self.old.words) }
        ensures verb { self.new.verb ≡ self.old.verb }
    {
        self.words
            .next_word()
            .ok_or(Misread::Missing(self.verb, wanted))
    }

    // The next word, read as what is wanted there.
    pub(crate) fn next<T: FromWord, W: Copy>(&mut self, wanted: W) -> Result<T, Misread<V, W>>
        ensures value { result ≡ argument self.old.verb wanted T.read (left self.old.words) }
        ensures rest { left self.new.words ≡ later (left self.old.words) }
        ensures verb { self.new.verb ≡ self.old.verb }
    {
        let word = self.next_word(wanted)?;
        T::from_word(word).ok_or(Misread::Wrong(self.verb, wanted))
    }

    // What was read, where no word is left.
    pub(crate) fn end<T: Drop, W: Drop>(&self, read: T) -> Result<T, Misread<V, W>>
        ensures { result ≡ ended self.now.verb (left self.now.words) read }
    {
        if self.words.is_done() {
            Ok(read)
        } else {
            Err(Misread::TooMany(self.verb))
        }
    }

    // One argument, and no word more.
    pub(crate) fn sole<T: FromWord + Drop, W: Copy>(
        &mut self,
        wanted: W,
    ) -> Result<T, Misread<V, W>>
        ensures { result ≡ sole self.old.verb wanted T.read (left self.old.words) }
    {
        let value = self.next(wanted)?;
        self.end(value)
    }
}
