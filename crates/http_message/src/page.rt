//! Pages: what a browser shows of this.

ghost use Rattle.std.specs.Prelude.{◌≡◌, IfOk};
ghost use Rattle.http_message.specs.Texts as texts;

use crate::lines::{BEFORE_KIND, BEHIND_KIND, NOTHING};
use crate::method::Method;
use crate::response::write_sent;
use http::StatusCode;
use std::alloc::{AllocError, Global};
use streams::Counted;

/// How much of a body a request by this method is answered with.
fn body_part_for(method: Method, body: &[u8]) -> &[u8]
    ensures { result.now ≡ texts.body_part_for method body.now }
{
    match method {
        Method::Post | Method::Get => body,
        Method::Head => NOTHING,
    }
}

/// The lines of a page whose body is of this kind, and these.
fn page_lines(alloc: Global, kind: &[u8], lines: &[u8]) -> Result<Vec<u8>, AllocError>
    ensures { IfOk result (λ all. all.items ≡ texts.page_lines kind.now lines.now) }
{
    let mut all = Vec::from_slice(alloc, BEFORE_KIND)?;
    all.extend_from_slice(kind)?;
    all.extend_from_slice(BEHIND_KIND)?;
    all.extend_from_slice(lines)?;
    Ok(all)
}

/// A page: the response of this status to a request by this method, with a body of this kind, as
/// `text/html; charset=utf-8`, and with these lines more, each of which ends with CR LF. HEAD is
/// answered with the head alone that GET would be, with the length of its body (RFC 9110, 9.3.2).
pub fn page_bytes(
    alloc: Global,
    method: Method,
    status: StatusCode,
    kind: &[u8],
    lines: &[u8],
    body: &[u8],
) -> Result<Vec<u8>, AllocError>
    // Proved: A page is written byte by byte, and to HEAD the same head without the body.
    ensures { IfOk result (λ text. text.items
        ≡ texts.page_text method status kind.now lines.now body.now) }
{
    let lines = page_lines(alloc, kind, lines)?;
    let mut writer = Counted::new(Vec::new(alloc));
    match write_sent(
        &mut writer,
        status,
        &lines,
        body,
        body_part_for(method, body),
    ) {
        Ok(()) => Ok(writer.into_inner()),
        Err(_) => Err(AllocError),
    }
}
