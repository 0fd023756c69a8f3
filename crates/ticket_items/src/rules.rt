ghost use Rattle.std.specs.Prelude.{◌≡◌};
ghost use Rattle.std.specs.List.{list_all};
ghost use Rattle.ticket_items.specs.Names as names;

/// Whether a byte may begin an id or a name: a letter or `_`.
fn is_name_start(byte: u8) -> bool
    ensures { result ≡ names.is_name_start byte }
{
    byte.is_ascii_alphabetic() || byte == b'_'
}

/// Whether a byte may follow in an id or a name: a letter, a digit, `_`, `.` or `-`.
fn is_name_part(byte: u8) -> bool
    ensures { result ≡ names.is_name_part byte }
{
    byte.is_ascii_alphanumeric() || byte == b'_' || byte == b'.' || byte == b'-'
}

/// Whether a byte is a decimal digit.
pub fn is_digit(byte: u8) -> bool
    ensures { result ≡ names.is_digit byte }
{
    byte.is_ascii_digit()
}

fn are_name_parts(bytes: &[u8]) -> bool
    ensures { result ≡ list_all names.is_name_part bytes.now }
{
    bytes.iter().all(|byte| is_name_part(*byte))
}

/// Whether a text is an id or a name of our profile: 1 to 64 characters of `A-Z a-z 0-9 _ . -`,
/// of which the first is a letter or `_`.
pub fn is_name(text: &str) -> bool
    ensures { result ≡ names.is_name text.now }
{
    match text.as_bytes().split_first() {
        None => false,
        Some((first, rest)) => is_name_start(*first) && are_name_parts(rest) && rest.len() < 64,
    }
}

/// The greatest length of a text, in bytes.
pub const MAX_TEXT_BYTES: usize = 1024;

/// Whether a text is one of our profile: of at most 1,024 bytes.
pub fn is_text(text: &str) -> bool
    ensures { result ≡ names.is_text text.now }
{
    text.len() <= MAX_TEXT_BYTES
}
