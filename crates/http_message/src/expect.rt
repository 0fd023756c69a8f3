//! What a request expects before it sends its body (RFC 9110, 10.1.1).

ghost use Rattle.std.specs.Prelude.{◌≡◌, length, map, All};
ghost use Rattle.httparse.specs.Spans.{IsHeaderWithin, header_bytes};
ghost use Rattle.http_message.specs.Expect as rules;
ghost use Rattle.http_message.specs.Seen.{named_seen};

use crate::field::{ValuesOfName, find_named};
use crate::start::Start;
use httparse::spans::HeaderSpan;

fn is_continue(values: ValuesOfName) -> bool
    ensures { result ≡ rules.is_continue (named_seen values.entry) }
{
    match values {
        ValuesOfName::Once(value) => value.eq_ignore_ascii_case(b"100-continue"),
        ValuesOfName::Absent | ValuesOfName::Often => false,
    }
}

/// Whether a head asks for the interim response. One of HTTP/1.0 never does.
pub(crate) fn expects_continue(start: Start, bytes: &[u8], fields: &[HeaderSpan]) -> bool
    requires { All (IsHeaderWithin (length bytes.now)) fields.now }
    ensures { result ≡ rules.expects_continue start (map (header_bytes bytes.now) fields.now) }
{
    match start {
        Start::Request { wants_host, .. } => {
            wants_host && is_continue(find_named(b"expect", bytes, fields))
        }
        Start::Response => false,
    }
}
