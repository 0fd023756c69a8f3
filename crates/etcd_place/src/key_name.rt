//! The name of a value, as a text.

ghost use Rattle.std.specs.Prelude.{◌≡◌};
ghost use Rattle.etcd_place.specs.Place as places;

use shop_folder::is_file_name;

/// How many segments a name has at most.
const MOST_SEGMENTS: u8 = 8;

/// Whether a text is names of files with a `/` between them, and so many at most.
fn are_segments(text: &str, most: u8) -> bool
    ensures { result ≡ places.are_segments most text.now }
{
    if most == 0 {
        return false;
    }
    match text.split_once('/') {
        Some((first, rest)) => is_file_name(first) && are_segments(rest, most - 1),
        None => is_file_name(text),
    }
}

/// Whether a text is one to eight names of files with a `/` between them.
pub(crate) fn is_key_name(text: &str) -> bool
    ensures { result ≡ places.is_key_name text.now }
{
    are_segments(text, MOST_SEGMENTS)
}
