//! A field that stands once in a head.

ghost use Rattle.std.specs.Prelude.{◌≡◌, option_map};
ghost use Rattle.http_message.specs.Fields.{lone_value};
ghost use Rattle.http_message.specs.Message.{HasLone};
ghost use Rattle.http_message.specs.Seen.{named_seen};

use crate::field::{ValuesOfName, find_named};
use crate::looking::MAX_FIELDS;
use httparse::Status;
use httparse::spans::{EMPTY_HEADER_SPAN, parse_request};

/// The value that stands alone, if one does.
fn lone_value(found: ValuesOfName<'_>) -> Option<&[u8]>
    ensures { option_map (λ value. value.now) result ≡ lone_value (named_seen found.entry) }
{
    match found {
        ValuesOfName::Once(value) => Some(value),
        ValuesOfName::Absent | ValuesOfName::Often => None,
    }
}

/// The value of the one field of this name in the head of a request, without the white space around
/// it. The name may be written in either case. There is none where no field has the name or more
/// than one does, and where the bytes begin with no head of at most 64 fields.
pub fn lone_field<'a>(head: &'a [u8], name: &[u8]) -> Option<&'a [u8]>
    // Proved: Of the bytes of a head the value of the one field of a name is found, in either
    // case, without the white space around it; none where no field has the name or more than one.
    ensures { HasLone head.now name.now (option_map (λ value. value.now) result) }
{
    let mut fields = [EMPTY_HEADER_SPAN; MAX_FIELDS];
    match parse_request(head, &mut fields) {
        Ok(Status::Complete(found)) => {
            lone_value(find_named(name, head, &fields[..found.headers]))
        }
        Ok(Status::Partial) | Err(_) => None,
    }
}
