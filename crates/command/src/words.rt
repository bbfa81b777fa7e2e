// The words of a line, one after another.
ghost use Rattle.std.specs.Prelude.{◌≡◌, slice_get};
ghost use Rattle.std.specs.List.{prefix_len, position_or_len};
ghost use Rattle.std.specs.Option.{option_copied};
ghost use Rattle.command.specs.Words.{blank, words, later, none};
ghost use Rattle.command.specs.Left.{left};
ghost use Rattle.command.specs.Laws.{CutIntoWords};
ghost use Rattle.command.specs.Trimmed.{trimmed, white};

// What is left of a line.
#[derive(Drop)]
pub(crate) struct Words<'a> {
    pub rest: &'a [u8],
}

fn is_blank(byte: u8) -> bool
    ensures { result ≡ blank byte }
{
    matches!(byte, b' ' | b'\t' | b'\r')
}

impl<'a> Words<'a> {
    pub(crate) fn of(line: &'a [u8]) -> Self
        ensures words { left result ≡ words line.now }
        ensures cut { CutIntoWords line.now }
    {
        Words { rest: line }
    }

    // Whether no word is left.
    pub(crate) fn is_done(&self) -> bool
        ensures { result ≡ none (left self.now) }
    {
        self.rest.iter().all(|byte| is_blank(*byte))
    }

    // The next word, where one is left.
    pub(crate) fn next_word(&mut self) -> Option<&'a [u8]>
        ensures word { option_copied result ≡ slice_get (left self.old) 0 }
        ensures rest { left self.new ≡ later (left self.old) }
    {
        let start = self.rest.iter().position(|byte| !is_blank(*byte))?;
        let text = &self.rest[start..];
        let len = text.iter().take_while(|byte| !is_blank(**byte)).count();
        let (word, rest) = text.split_at(len);
        self.rest = rest;
        Some(word)
    }
}

fn is_white(byte: u8) -> bool
    ensures { result ≡ white byte }
{
    is_blank(byte) || byte == b'\n'
}

// The line without the blanks and line feeds around it.
pub fn trimmed(line: &[u8]) -> &[u8]
    ensures { result.now ≡ trimmed line.now }
{
    let before = line.iter().take_while(|byte| is_white(**byte)).count();
    let line = &line[before..];
    let after = line
        .iter()
        .rev()
        .take_while(|byte| is_white(**byte))
        .count();
    &line[..line.len() - after]
}
