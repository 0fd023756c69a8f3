//! What the first line and the fields of a head say of the body.

ghost use Rattle.std.specs.Prelude.{◌≡◌, ◌≤◌, length, map, All, IfOk};
ghost use Rattle.httparse.specs.Spans.{IsHeaderWithin, header_bytes};
ghost use Rattle.http_message.specs.Says.{body_length};
ghost use Rattle.http_message.specs.Says as rules;

use crate::field::{ValuesOfName, find_named};
use crate::length::length_told;
use crate::method::Method;
use crate::start::Start;
use httparse::spans::HeaderSpan;
use streams::Refused;

fn is_coded(bytes: &[u8], fields: &[HeaderSpan]) -> bool
    requires { All (IsHeaderWithin (length bytes.now)) fields.now }
    ensures { result ≡ rules.is_coded (map (header_bytes bytes.now) fields.now) }
{
    !matches!(
        find_named(b"transfer-encoding", bytes, fields),
        ValuesOfName::Absent
    ) || !matches!(
        find_named(b"content-encoding", bytes, fields),
        ValuesOfName::Absent
    )
}

/// The length of a body that isn't there, where this is told of it.
fn no_body(length: Result<usize, Refused>) -> Result<usize, Refused>
    ensures value { result ≡ rules.no_body length }
    ensures bound { IfOk result (λ n. n ≡ 0) }
{
    match length {
        Ok(0) | Err(Refused::NoLength) => Ok(0),
        Ok(_) => Err(Refused::TooLarge),
        Err(refused) => Err(refused),
    }
}

/// The length of the body of a request by this method, where this is told of it.
fn length_by_method(
    method: Method,
    length: Result<usize, Refused>,
    most: u32,
) -> Result<usize, Refused>
    requires { IfOk length (λ n. n ≤ most) }
    ensures value { result ≡ rules.length_by_method method length }
    ensures bound { IfOk result (λ n. n ≤ most) }
{
    match method {
        Method::Post => length,
        Method::Get | Method::Head => no_body(length),
    }
}

/// The length of the body, of at most so many bytes, or the first refusal.
pub(crate) fn says(
    start: Start,
    bytes: &[u8],
    fields: &[HeaderSpan],
    most: u32,
) -> Result<usize, Refused>
    requires { All (IsHeaderWithin (length bytes.now)) fields.now }
    ensures value { result ≡ body_length most start (map (header_bytes bytes.now) fields.now) }
    ensures bound { IfOk result (λ n. n ≤ most) }
{
    let length = length_told(find_named(b"content-length", bytes, fields), most);
    if let Err(Refused::BadHead) = length {
        return Err(Refused::BadHead);
    }
    let told = match start {
        Start::Request { taken, wants_host } => {
            if wants_host && !matches!(find_named(b"host", bytes, fields), ValuesOfName::Once(_)) {
                return Err(Refused::BadHead);
            }
            match taken {
                Some(method) => length_by_method(method, length, most),
                None => return Err(Refused::NotPost),
            }
        }
        Start::Response => length,
    };
    if is_coded(bytes, fields) {
        return Err(Refused::Coding);
    }
    told
}
