//! The length that a head tells.

ghost use Rattle.std.specs.Prelude.{◌≡◌, ◌+◌, ◌≤◌, min, IsTrue, IfOk};
ghost use Rattle.std.specs.Char.{is_ascii_digit};
ghost use Rattle.std.specs.List.{list_all};
ghost use Rattle.std.specs.Str.Parse.{digits_value};
ghost use Rattle.http_message.specs.Says as rules;
ghost use Rattle.http_message.specs.Seen.{named_seen};

use crate::field::ValuesOfName;
use streams::Refused;

/// How many bytes a body has at most, where nothing else is said.
pub const MAX_BODY_BYTES: usize = 1_048_576;

// The number that these digits write, and one more than `most` for any above.
fn number_of(digits: &[u8], most: u32) -> usize
    requires { IsTrue (rules.is_number digits.now) }
    ensures { result ≡ min (digits_value 10 digits.now) (most + 1) }
{
    let above = most as usize + 1;
    let mut number = 0;
    for digit in digits {
        number = usize::min(number * 10 + (*digit - b'0') as usize, above);
    }
    number
}

fn are_digits(text: &[u8]) -> bool
    ensures { result ≡ list_all is_ascii_digit text.now }
{
    text.iter().all(|digit| digit.is_ascii_digit())
}

fn is_number(text: &[u8]) -> bool
    ensures { result ≡ rules.is_number text.now }
{
    if text.is_empty() {
        return false;
    }
    are_digits(text)
}

// The length that this text writes. More than `most` are `TooLarge`, however many digits there are.
fn length_of(text: &[u8], most: u32) -> Result<usize, Refused>
    ensures value { result ≡ rules.length_of most text.now }
    ensures bound { IfOk result (λ n. n ≤ most) }
{
    if !is_number(text) {
        return Err(Refused::BadHead);
    }
    let length = number_of(text, most);
    if length > most as usize {
        return Err(Refused::TooLarge);
    }
    Ok(length)
}

/// What the values of `Content-Length` tell.
pub(crate) fn length_told(values: ValuesOfName, most: u32) -> Result<usize, Refused>
    ensures value { result ≡ rules.length_in_fields most (named_seen values.entry) }
    ensures bound { IfOk result (λ n. n ≤ most) }
{
    match values {
        ValuesOfName::Absent => Err(Refused::NoLength),
        ValuesOfName::Once(value) => length_of(value, most),
        ValuesOfName::Often => Err(Refused::BadHead),
    }
}
