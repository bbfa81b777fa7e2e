// Numbers as they are written: digits, and grams with a sign before them.
ghost use Rattle.std.specs.Prelude.{◌≡◌, ℕ, ◌+◌, ◌-◌, ◌*◌, ◌^◌, ◌<◌, ◌&&◌, if◌then◌else◌, Some, None, nat_le};
ghost use Rattle.command.specs.Numbers.{digit, value_in, number_in, grams_in, with_digit};
ghost use Rattle.command.specs.Laws.{Bounded};

use crate::arguments::FromWord;

// A value with one digit more; none where the byte is no digit or the value has no place.
fn longer(value: u32, byte: u8) -> Option<u32>
    ensures { result ≡ (if digit byte && nat_le (with_digit value byte) 4294967295 then Some (with_digit value byte) else None) }
{
    if !byte.is_ascii_digit() {
        return None;
    }
    value.checked_mul(10)?.checked_add(u32::from(byte - b'0'))
}

// The value of one or more digits, where it is at most the limit.
pub(crate) fn value(digits: &[u8], limit: u32) -> Option<u32>
    ensures { result ≡ value_in limit digits.now }
{
    if digits.is_empty() {
        return None;
    }
    let mut value = 0;
    for byte in digits {
        value = longer(value, *byte)?;
    }
    (value <= limit).then_some(value)
}

impl FromWord for u32 {
    ghost read = { number_in };

    fn from_word(word: &[u8]) -> Option<u32>
        ensures value { result ≡ number_in word.now }
        ensures bound { Bounded word.now }
    {
        value(word, u32::MAX)
    }
}

// A weight: digits, with a '-' before them where it is below zero.
impl FromWord for i32 {
    ghost read = { grams_in };

    fn from_word(word: &[u8]) -> Option<i32> {
        match word {
            [b'-', digits @ ..] => i32::try_from(-i64::from(u32::from_word(digits)?)).ok(),
            _ => i32::try_from(u32::from_word(word)?).ok(),
        }
    }
}
