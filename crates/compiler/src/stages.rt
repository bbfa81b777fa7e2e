// Compilation of a text, stage by stage.
ghost use Rattle.std.specs.Prelude.{◌≡◌, ◌<◌, ◌≤◌, length, replicate, slice_set};
ghost use Rattle.recipe.specs.Compiled.{Compiles};
ghost use Rattle.recipe.specs.Image.{HEAD};
ghost use Rattle.recipe.specs.Theorem.{Meaning};
ghost use Rattle.compiler.specs.Stages.{Admits, Checks, Judges, Plans, Planned, Translates, Written};

use lexer::{Kind, next_token};
use pass::{Base, Pass};
use recipe::{Cause, Refusal};

const LONGEST_TEXT: usize = 60_000;

// The words of image and of work table that a compile is to be lent.
pub const IMAGE_WORDS: usize = 4_096;

pub const TABLE_WORDS: usize = 2_000;

// The first word of an image, but for the number of its words.
const HEAD_WORD: u32 = 0x9000_0000;

// Before the text is read, by the lengths of the text, the image and the work table.
pub(crate) fn admit(text: &[u8], image: &[u32], table: &[u32]) -> Result<(), Refusal>
    ensures { Admits (length text.now) (length image.now) (length table.now) result }
{
    if text.len() > LONGEST_TEXT {
        return Err(Refusal {
            cause: Cause::TextTooLong,
            place: LONGEST_TEXT,
        });
    }
    if image.len() < IMAGE_WORDS || table.len() < TABLE_WORDS {
        return Err(Refusal {
            cause: Cause::NoRoom,
            place: 0,
        });
    }
    Ok(())
}

// Every word of the work table, however many there are.
pub(crate) fn clear(table: &mut [u32])
    ensures { table.new ≡ replicate (length table.old) 0 }
{
    table.fill(0);
}

// The first that is no token is refused. Where a token begins is known once the one before it has been read.
pub(crate) fn check_tokens(text: &[u8]) -> Result<(), Refusal>
    ensures { Checks text.now result }
{
    let mut look = next_token(text, 0);
    while look.kind != Kind::End {
        if let Kind::Bad(cause) = look.kind {
            return Err(Refusal {
                cause,
                place: look.start,
            });
        }
        look = next_token(text, look.end);
    }
    Ok(())
}

// What a pass that knows the functions found wrong: with the names first, then with the frames.
pub(crate) fn judge(found: &Pass) -> Result<(), Refusal>
    ensures { Judges found.now result }
{
    let too_large = found.over.map(|place| Refusal {
        cause: Cause::Frame,
        place,
    });
    match found.fault.or(too_large) {
        Some(refusal) => Err(refusal),
        None => Ok(()),
    }
}

// Two passes that write nothing. The first is refused by the grammar and its limits, and finds the functions and how many
// words there are before theirs. The second knows the functions, so it finds what is wrong with the names and the frames,
// and where the functions' words begin.
pub(crate) fn plan(text: &[u8]) -> Result<Pass<'_>, Refusal>
    ensures { Plans text.now result }
{
    let first = Base::default().over(text, &[], &mut [])?;
    let functions = &first.table[..first.count];
    let second = first.past_main.over(text, functions, &mut [])?;
    judge(&second)?;
    Ok(second)
}

// The first word, with the number of all words.
pub(crate) fn put_head(image: &mut [u32], words: usize)
    requires { (words ≤ 4096) × (0 < length image.old) }
    ensures { image.new ≡ slice_set image.old 0 (HEAD words) }
{
    image[0] = HEAD_WORD + words as u32;
}

// The pass that writes, with the functions where the plan has them; then the head. The text has been read before, so nothing is refused.
pub(crate) fn write(text: &[u8], plan: &Pass, image: &mut [u32]) -> Result<(), Refusal>
    requires { (Planned text.now plan.now) × (4096 ≤ length image.old) }
    ensures { Written text.now image.old result image.new }
{
    let functions = &plan.table[..plan.count];
    plan.past_main.over(text, functions, image)?;
    put_head(image, plan.past_functions);
    Ok(())
}

// The stages over a text, where there is room.
pub(crate) fn translate(text: &[u8], image: &mut [u32]) -> Result<usize, Refusal>
    requires { 4096 ≤ length image.old }
    ensures { Translates text.now image.old result image.new }
{
    check_tokens(text)?;
    let layout = plan(text)?;
    write(text, &layout, image)?;
    Ok(layout.past_functions)
}

// Compiles a text into `image`: the number of words written, or why and where the text is refused. A refusal writes no word.
// The work table is left full of zeros, unless the text is too long or there is too little room.
pub fn compile(text: &[u8], image: &mut [u32], table: &mut [u32]) -> Result<usize, Refusal>
    ensures answer { Compiles text.now image.old table.old result image.new table.new }
    ensures meaning { Meaning text.now (length table.old) result image.old image.new }
{
    admit(text, image, table)?;
    clear(table);
    translate(text, image)
}
