// The next token of a recipe text.
#![tactic(auto)]

ghost use Rattle.std.specs.Prelude.{◌≡◌, ℕ, ◌<◌, ◌≤◌, true, false, [], ◌∷◌, min, length, slice_index};
ghost use Rattle.recipe.specs.Tokens.{blank, name_token, number_token, sign};
ghost use Rattle.lexer.specs.Lexed.{tokens_from, Valid, rest, Unbroken, OneAnswer, Begins, Stands, Small, worth};

use recipe::{Cause, Op, Word};

const LARGEST_NUMBER: u32 = 268_435_455;

const LONGEST_NAME: usize = 16;

// What a token is. A name's bytes, and not its spelling, are what a lexeme has.
// What is no token and the end are kinds too: both have a place, and a parser refuses them as every token that does not fit.
#[derive(Clone, Copy, PartialEq, Eq, Debug)]
pub enum Kind {
    Number(u32),
    Name,
    Operator(Op),
    Word(Word),
    Bad(Cause),
    End,
}

// A token and the bytes that it takes, from `start` to `end`; past the last one, the end of the text.
#[derive(Clone, Copy, PartialEq, Eq, Debug)]
pub struct Lexeme {
    pub kind: Kind,
    pub start: usize,
    pub end: usize,
}

// Four comparisons make one test of a bit, and a pattern up to four tests. Each token's first byte pays for them.
fn is_blank(byte: u8) -> bool
    ensures { result ≡ blank byte }
{
    byte == b' ' || byte == b'\t' || byte == b'\r' || byte == b'\n'
}

// How many bytes at the front pass a test.
fn front<F: Fn(u8) -> bool>(bytes: &[u8], passes: F) -> usize
    requires { F.IsAlwaysCallable passes }
    ensures within { result ≤ length bytes.now }
    ensures passes { (k : ℕ) → k < result → F.post passes (slice_index bytes.now k) true }
    ensures stops { result < length bytes.now → F.post passes (slice_index bytes.now result) false }
{
    bytes.iter().take_while(|byte| passes(**byte)).count()
}

// What a whole run of digits is. Where some of them are too large a number already, so are all of them.
fn number(digits: &[u8]) -> Kind
    ensures { Stands (λ p. number_token p (worth digits.now) ∷ []) digits.now result }
{
    let mut value = 0;
    for digit in digits {
        value = 10 * value + u32::from(*digit).saturating_sub(u32::from(b'0'));
        if value > LARGEST_NUMBER {
            return Kind::Bad(Cause::NumberTooLarge);
        }
    }
    Kind::Number(value)
}

// What a whole run of letters and digits is. A reserved word is never too long.
fn word_or_name(name: &[u8]) -> Kind
    ensures { Stands (λ p. name_token p name.now ∷ []) name.now result }
{
    match name {
        b"let" => Kind::Word(Word::Let),
        b"in" => Kind::Word(Word::In),
        b"ifp" => Kind::Word(Word::Ifp),
        b"then" => Kind::Word(Word::Then),
        b"else" => Kind::Word(Word::Else),
        b"div" => Kind::Operator(Op::Over),
        b"weigh" => Kind::Word(Word::Weigh),
        _ if name.len() <= LONGEST_NAME => Kind::Name,
        _ => Kind::Bad(Cause::NameTooLong),
    }
}

// What a byte is that begins neither a number nor a name, and is no blank.
fn sign(c: u8) -> Kind
    requires { blank c ≡ false }
    ensures { Stands (λ p. sign p c) (c ∷ []) result }
{
    match c {
        b'(' => Kind::Word(Word::Open),
        b')' => Kind::Word(Word::Close),
        b',' => Kind::Word(Word::Comma),
        b'=' => Kind::Word(Word::Equals),
        b'+' => Kind::Operator(Op::Plus),
        b'-' => Kind::Operator(Op::Minus),
        b'*' => Kind::Operator(Op::Times),
        _ => Kind::Bad(Cause::UnknownByte),
    }
}

// The token that bytes begin with, whose first is no blank, and how many of them it takes.
fn first_token(bytes: &[u8]) -> (Kind, usize)
    requires { 0 < length bytes.now → blank (slice_index bytes.now 0) ≡ false }
    ensures { Begins bytes.now result.0 result.1 }
{
    let Some(first) = bytes.first() else {
        return (Kind::End, 0);
    };
    if first.is_ascii_digit() {
        let len = front(bytes, |byte| byte.is_ascii_digit());
        return (number(&bytes[..len]), len);
    }
    if first.is_ascii_alphabetic() {
        let len = front(bytes, |byte| byte.is_ascii_alphanumeric());
        return (word_or_name(&bytes[..len]), len);
    }
    (sign(*first), 1)
}

// The first token from a place on that no token goes over. Past the end of the text it is the end.
pub fn next_token(text: &[u8], at: usize) -> Lexeme
    ensures valid { (min at (length text.now) ≤ result.start) × Valid text.now result }
    ensures reads { tokens_from text.now at ≡ rest text.now result }
    ensures small { Small result.kind }
    ensures unbroken { Unbroken text.now result.start result.end }
{
    let from = at.min(text.len());
    let start = from + front(&text[from..], is_blank);
    let (kind, len) = first_token(&text[start..]);
    Lexeme {
        kind,
        start,
        end: start + len,
    }
}

// What next_token promises leaves one answer. Nothing calls this: its contract has that proved.
pub(crate) fn one_answer()
    ensures { OneAnswer }
{}
