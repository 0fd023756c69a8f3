//! The numbers of a tree.

ghost use Rattle.std.specs.Prelude.{◌≡◌, ◌<◌, ◌==◌, false, length, slice_index, true};
ghost use Rattle.std.specs.Option.{option_map};
ghost use Rattle.serde_json.specs.Read.{float_of, number_from, number_of};
ghost use Rattle.serde_json.specs.View.{number_view};

use fast_float::Numeral;
use serde_json::Number;

/// The number nearest to a numeral, where it is finite.
fn nearest(is_negative: bool, numeral: &Numeral<'_>) -> Option<Number>
    ensures { option_map number_view result ≡ float_of is_negative numeral.now }
{
    Number::from_f64(numeral.to_float::<f64>(is_negative))
}

/// The number of a numeral without a sign, where it is in range.
fn unsigned_number(numeral: &Numeral<'_>) -> Option<Number>
    ensures { option_map number_view result ≡ number_from false numeral.now }
{
    match numeral.to_u64() {
        Some(whole) => Number::from_u128(whole as u128),
        None => nearest(false, numeral),
    }
}

/// The number of a numeral behind a minus, where it is in range.
fn negative(numeral: &Numeral<'_>) -> Option<Number>
    ensures { option_map number_view result ≡ number_from true numeral.now }
{
    match numeral.to_i64(true) {
        Some(whole) if whole < 0 => Number::from_i128(whole as i128),
        _ => nearest(true, numeral),
    }
}

/// Whether a text begins with a minus.
fn has_minus(bytes: &[u8]) -> bool
    ensures minus { result ≡ (slice_index bytes.now 0 == 45) }
    ensures within { result ≡ true → 0 < length bytes.now }
{
    !bytes.is_empty() && bytes[0] == b'-'
}

/// The number that a text of a tree is, where it is in range: a whole number of 64 bits, or else a
/// finite float.
pub fn number_in(text: &str) -> Option<Number>
    ensures { option_map number_view result ≡ number_of text.now }
{
    let bytes = text.as_bytes();
    if has_minus(bytes) {
        negative(&Numeral::scan(&bytes[1..]))
    } else {
        unsigned_number(&Numeral::scan(bytes))
    }
}
