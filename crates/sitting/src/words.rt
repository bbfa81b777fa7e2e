// The words of a reply.
use crate::lines::Reply;
use std::fmt;

// Eight digits each, with blanks between.
fn hexadecimal<W: fmt::Write>(words: &[u32], f: &mut fmt::Formatter<W>) -> fmt::Result {
    for (i, word) in words.iter().enumerate() {
        if i > 0 {
            write!(f, " ")?;
        }
        write!(f, "{word:08X}")?;
    }
    Ok(())
}

// A file that is wanted has no words yet.
impl fmt::Display for Reply<'_> {
    ghost use Rattle.sitting.specs.Words.{reply_text};

    ghost output = { reply_text };

    fn fmt<W: fmt::Write>(&self, f: &mut fmt::Formatter<W>) -> fmt::Result {
        match self {
            Reply::Bench(answer) => write!(f, "{answer}"),
            Reply::Accepted(count) => write!(f, "accepted, {count} words"),
            Reply::NotKept(reason) => write!(f, "{reason}"),
            Reply::Words(words) => hexadecimal(words, f),
            Reply::NoRecipe => write!(f, "not understood: no recipe has that name"),
            Reply::File { .. } => Ok(()),
            Reply::NotUnderstood(misreading) => write!(f, "{misreading}"),
        }
    }
}
