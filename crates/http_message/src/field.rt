//! The fields of a head by their names, which may be written in either case.

ghost use Rattle.std.specs.Prelude.{◌≡◌, length, map, All};
ghost use Rattle.httparse.specs.Spans.{IsHeaderWithin, header_bytes};
ghost use Rattle.http_message.specs.Fields.{summary, values_of, with_value};
ghost use Rattle.http_message.specs.Seen.{named_seen};

use httparse::spans::HeaderSpan;

/// The values under one name.
#[derive(Clone, Copy)]
pub(crate) enum ValuesOfName<'a> {
    Absent,
    Once(&'a [u8]),
    Often,
}

// What one more field makes of the values under the name so far.
fn with_field<'a>(
    found: ValuesOfName<'a>,
    name: &[u8],
    bytes: &'a [u8],
    field: HeaderSpan,
) -> ValuesOfName<'a>
    requires { IsHeaderWithin (length bytes.now) field }
    ensures { named_seen result ≡ with_value (named_seen found.entry) name.now
        (header_bytes bytes.now field) }
{
    if !field.name.of(bytes).eq_ignore_ascii_case(name) {
        return found;
    }
    match found {
        ValuesOfName::Absent => ValuesOfName::Once(field.value.of(bytes)),
        ValuesOfName::Once(_) | ValuesOfName::Often => ValuesOfName::Often,
    }
}

/// The values under the name.
pub(crate) fn find_named<'a>(
    name: &[u8],
    bytes: &'a [u8],
    fields: &[HeaderSpan],
) -> ValuesOfName<'a>
    requires { All (IsHeaderWithin (length bytes.now)) fields.now }
    ensures { named_seen result ≡ summary (values_of name.now
        (map (header_bytes bytes.now) fields.now)) }
{
    let mut found = ValuesOfName::Absent;
    for field in fields {
        found = with_field(found, name, bytes, *field);
    }
    found
}
