// Lines for people that add to a refusal: where in the text it stands, and what is wrong there.
use recipe::{Cause, Refusal};
use std::io;
use std::io::Write;

fn is_feed(byte: &u8) -> bool {
    *byte == b'\n'
}

// Blanks as wide as the text over them: a tab stays a tab, and a byte that goes on a character has no width.
fn write_blanks(out: &mut impl Write, before: &[u8]) -> io::Result<()> {
    for byte in before {
        match *byte {
            b'\t' => out.write_all(b"\t")?,
            0x80..=0xbf => {}
            _ => out.write_all(b" ")?,
        }
    }
    Ok(())
}

// The text's line with a mark under the place.
fn write_place(out: &mut impl Write, text: &[u8], place: usize) -> io::Result<()> {
    let (before, after) = text.split_at(place.min(text.len()));
    let begun = before.rsplit(is_feed).next().unwrap_or(before);
    let left = after.split(is_feed).next().unwrap_or(after);
    let line = before
        .iter()
        .filter(|byte| is_feed(*byte))
        .count()
        .saturating_add(1);
    let column = begun.len().saturating_add(1);
    writeln!(out, "  line {line}, column {column}:")?;
    out.write_all(b"  ")?;
    out.write_all(&text[before.len() - begun.len()..before.len() + left.len()])?;
    out.write_all(b"\n  ")?;
    write_blanks(out, begun)?;
    out.write_all(b"^\n")
}

// A sentence for the author of the text. Whether a text breaks off, the place says: it is then the text's length.
fn advice(cause: Cause, at_end: bool) -> &'static str {
    match cause {
        Cause::TextTooLong => "A text has at most 60000 bytes.",
        Cause::NoRoom =>
            "A compile wants at least 4096 words of image and 2000 of work table: give it more by the command room.",
        Cause::UnknownByte =>
            "No number, name or sign begins with this byte: write letters, digits, blanks and ( ) , = + - * only.",
        Cause::NumberTooLarge => "A number is at most 268435455.",
        Cause::NameTooLong => "A name has at most 16 letters and digits.",
        Cause::Grammar if at_end => "The text ends too early: something has to follow here.",
        Cause::Grammar => "The grammar allows no such token here.",
        Cause::Nesting => "At most 32 brackets, lets and ifps may be open at once.",
        Cause::Functions => "A recipe declares at most 32 functions.",
        Cause::Parameters => "A function has at most 8 parameters.",
        Cause::Constructs =>
            "A recipe has at most 2000 constructs: numbers, names used, calls, weighs, operators, lets and ifps.",
        Cause::DeclaredTwice =>
            "The name is declared already: functions have different names, and so have the parameters of one function.",
        Cause::UnknownName =>
            "No such name is in force here: a variable is a parameter of this function or a let's name, and what is called is a declared function.",
        Cause::ArgumentCount => "The function is declared with another number of parameters.",
        Cause::Channel => "Channels are 1 to 64.",
        Cause::Frame =>
            "The function with this name, or the expression after this in, comes to hold over 32 values at once: use fewer parameters, lets or open operators.",
    }
}

pub(crate) fn explain(out: &mut impl Write, refusal: Refusal, text: &[u8]) -> io::Result<()> {
    let cause = refusal.cause;
    // a text that is too long and room that is too little have no place in a line
    if !matches!(cause, Cause::TextTooLong | Cause::NoRoom) {
        write_place(out, text, refusal.place)?;
    }
    let sentence = advice(cause, refusal.place == text.len());
    writeln!(out, "  {sentence}")
}
