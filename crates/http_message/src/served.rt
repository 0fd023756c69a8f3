//! The response of a server to a request, as one text.

ghost use Rattle.std.specs.Prelude.{◌≡◌, string_bytes, IfOk, OnOk, OnErr, option_map};
ghost use Rattle.streams.specs.Streams.{Writes, WritesFront, traffic};
ghost use Rattle.http_message.specs.Texts as texts;

use crate::lines::TYPE_LINE;
use crate::method::Method;
use crate::methods::{Methods, takes};
use crate::response::{write_missing, write_refusal, write_response, write_status};
use crate::status::status_of;
use http::StatusCode;
use std::alloc::{AllocError, Global};
use std::io::Write;
use streams::{Counted, Refused};

/// What tells a refusal, as JSON.
pub fn refusal_body(alloc: Global, refused: &Refused) -> Result<String, AllocError>
    // Proved: What tells a refusal as JSON is told by itself.
    ensures { IfOk result (λ body. string_bytes body ≡ texts.refusal_body refused.now) }
{
    let name = refused.name();
    let number = refused.number();
    format!(in alloc; "{{\"Name\":\"{name}\",\"Refused\":{number}}}")
}

/// Whether the response to a refused request has a body, which tells the refusal: where the request
/// is to blame. What may answer HEAD has none.
fn is_told(methods: Methods, refused: &Refused) -> bool
    ensures { result ≡ texts.is_told methods refused.now }
{
    status_of(*refused) == StatusCode::BAD_REQUEST && !takes(methods, Method::Head)
}

/// Writes the response to a request that a listener of these methods refused.
fn write_told<W: Write>(
    alloc: Global,
    writer: &mut Counted<W>,
    methods: Methods,
    refused: &Refused,
) -> Result<(), AllocError>
    ensures { OnOk result (Writes (traffic W.contents writer.old writer.new)
        (texts.told_text methods refused.now)) }
{
    let written = if is_told(methods, refused) {
        let body = refusal_body(alloc, refused)?;
        write_status(writer, StatusCode::BAD_REQUEST, TYPE_LINE, body.as_bytes())
    } else {
        write_refusal(writer, methods, *refused)
    };
    match written {
        Ok(()) => Ok(()),
        Err(_) => Err(AllocError),
    }
}

/// The response to a request that a listener of these methods refused. It names them where another
/// came. One of status 400 tells the refusal in its body, as JSON, unless HEAD is among them: what
/// answers that has no body (RFC 9110, 9.3.2).
pub fn refused_bytes(
    alloc: Global,
    methods: Methods,
    refused: &Refused,
) -> Result<Vec<u8>, AllocError>
    // Proved: A listener of other methods names these where it refuses another, and one that takes
    // HEAD tells no refusal in a body.
    ensures { IfOk result (λ text. text.items ≡ texts.told_text methods refused.now) }
{
    let mut writer = Counted::new(Vec::new(alloc));
    write_told(alloc, &mut writer, methods, refused)?;
    Ok(writer.into_inner())
}

/// The response to a message that was answered with a body or with none, or was refused: that of
/// `write_response`, but that a response of status 400 tells the refusal in its body, as JSON.
pub fn served_bytes(
    alloc: Global,
    answered: &Result<Option<&[u8]>, Refused>,
) -> Result<Vec<u8>, AllocError>
    // Proved: The response of a server as one text is that of `write_response`, but that one of
    // status 400 tells its refusal as JSON.
    // By `missing_bytes`.
    ensures { IfOk result (λ text. text.items ≡ texts.served_text (texts.answer_of answered.now)) }
{
    let mut writer = Counted::new(Vec::new(alloc));
    match answered {
        Err(refused) => write_told(alloc, &mut writer, Methods::Post, refused)?,
        Ok(_) => match write_response(&mut writer, answered) {
            Ok(()) => {}
            Err(_) => return Err(AllocError),
        },
    }
    Ok(writer.into_inner())
}

/// The response to a request that names no controller that is there.
pub fn missing_bytes(alloc: Global) -> Result<Vec<u8>, AllocError>
    ensures { IfOk result (λ text. text.items ≡ texts.missing_text) }
{
    let mut writer = Counted::new(Vec::new(alloc));
    match write_missing(&mut writer) {
        Ok(()) => Ok(writer.into_inner()),
        Err(_) => Err(AllocError),
    }
}
