//! Writing a response.

ghost use Rattle.std.specs.Prelude.{◌≡◌, OnOk, OnErr, IfErr, option_map};
ghost use Rattle.streams.specs.declared.refused.Refused.TheVariants.{WriteFailed};
ghost use Rattle.streams.specs.Streams.{Writes, WritesFront, traffic};
ghost use Rattle.http_message.specs.Texts as texts;

use crate::lines::{BEFORE_LENGTH, BEHIND_LENGTH, NOTHING, PLAIN_LINE, TYPE_LINE};
use crate::methods::{Methods, allow_line};
use crate::pieces::write_pieces;
use crate::status::{phrase_of, status_of};
use http::StatusCode;
use itoa::Buffer;
use std::io::Write;
use streams::{Counted, Refused};

/// What is answered to a request that names no controller that is there.
const MISSING: &[u8] = b"no controller of this name\n";

/// The lines that only the response to this refusal has: RFC 9110 asks for the methods that are
/// taken, where another came.
fn refusal_lines(methods: Methods, refused: &Refused) -> &'static [u8]
    ensures { result.now ≡ texts.refusal_lines methods refused.now }
{
    match refused {
        Refused::NotPost => allow_line(methods),
        _ => NOTHING,
    }
}

/// Writes a response whose status has this code and this phrase, with the length of the body, and
/// so much of it as is sent.
fn write_parts<'a, W: Write>(
    writer: &mut Counted<W>,
    code: &'a [u8],
    phrase: &'a [u8],
    lines: &'a [u8],
    body: &[u8],
    sent: &'a [u8],
) -> Result<(), Refused>
    ensures ok { OnOk result (Writes (traffic W.contents writer.old writer.new)
        (texts.parts_text code.now phrase.now lines.now body.now sent.now)) }
    ensures front { OnErr result (WritesFront (traffic W.contents writer.old writer.new)
        (texts.parts_text code.now phrase.now lines.now body.now sent.now)) }
    ensures refusal { IfErr result (λ e. e ≡ WriteFailed) }
{
    let mut buffer = Buffer::new();
    let length = buffer.format(body.len()).as_bytes();
    write_pieces(
        writer,
        &[
            b"HTTP/1.1 ",
            code,
            b" ",
            phrase,
            b"\r\n",
            lines,
            BEFORE_LENGTH,
            length,
            BEHIND_LENGTH,
            sent,
        ],
    )
}

/// Writes a response of this status, with the length of the body, and so much of it as is sent.
pub(crate) fn write_sent<W: Write>(
    writer: &mut Counted<W>,
    status: StatusCode,
    lines: &[u8],
    body: &[u8],
    sent: &[u8],
) -> Result<(), Refused>
    ensures ok { OnOk result (Writes (traffic W.contents writer.old writer.new)
        (texts.sent_text status lines.now body.now sent.now)) }
    ensures front { OnErr result (WritesFront (traffic W.contents writer.old writer.new)
        (texts.sent_text status lines.now body.now sent.now)) }
    ensures refusal { IfErr result (λ e. e ≡ WriteFailed) }
{
    let code = status.as_str().as_bytes();
    write_parts(
        writer,
        code,
        phrase_of(status).as_bytes(),
        lines,
        body,
        sent,
    )
}

/// Writes a response of this status.
pub(crate) fn write_status<W: Write>(
    writer: &mut Counted<W>,
    status: StatusCode,
    lines: &[u8],
    body: &[u8],
) -> Result<(), Refused>
    ensures ok { OnOk result (Writes (traffic W.contents writer.old writer.new)
        (texts.status_text status lines.now body.now)) }
    ensures front { OnErr result (WritesFront (traffic W.contents writer.old writer.new)
        (texts.status_text status lines.now body.now)) }
    ensures refusal { IfErr result (λ e. e ≡ WriteFailed) }
{
    write_sent(writer, status, lines, body, body)
}

/// Writes the response to a request that was answered with a body or with none.
fn write_answer<W: Write>(writer: &mut Counted<W>, body: Option<&[u8]>) -> Result<(), Refused>
    ensures ok { OnOk result (Writes (traffic W.contents writer.old writer.new)
        (texts.answer_text (option_map (λ bytes. bytes.now) body.entry))) }
    ensures front { OnErr result (WritesFront (traffic W.contents writer.old writer.new)
        (texts.answer_text (option_map (λ bytes. bytes.now) body.entry))) }
    ensures refusal { IfErr result (λ e. e ≡ WriteFailed) }
{
    match body {
        Some(bytes) => write_status(writer, StatusCode::OK, TYPE_LINE, bytes),
        None => write_status(writer, StatusCode::OK, NOTHING, NOTHING),
    }
}

/// Writes the response to a request that a listener of these methods refused.
pub(crate) fn write_refusal<W: Write>(
    writer: &mut Counted<W>,
    methods: Methods,
    refused: Refused,
) -> Result<(), Refused>
    ensures ok { OnOk result (Writes (traffic W.contents writer.old writer.new)
        (texts.refusal_text methods refused)) }
    ensures front { OnErr result (WritesFront (traffic W.contents writer.old writer.new)
        (texts.refusal_text methods refused)) }
    ensures refusal { IfErr result (λ e. e ≡ WriteFailed) }
{
    let lines = refusal_lines(methods, &refused);
    write_status(writer, status_of(refused), lines, NOTHING)
}

/// Writes the response to a request that names no controller that is there. Its form is that of RFC
/// 9112, and its one line of text our own. It takes no memory. Refuses `WriteFailed` where a write
/// fails.
pub fn write_missing<W: Write>(writer: &mut Counted<W>) -> Result<(), Refused>
    ensures ok { OnOk result (Writes (traffic W.contents writer.old writer.new)
        texts.missing_text) }
    ensures front { OnErr result (WritesFront (traffic W.contents writer.old writer.new)
        texts.missing_text) }
    ensures refusal { IfErr result (λ e. e ≡ WriteFailed) }
{
    write_status(writer, StatusCode::NOT_FOUND, PLAIN_LINE, MISSING)
}

/// Writes the response to a message that was answered with a body or with none, or was refused. Its
/// form is that of RFC 9112; which status answers a refusal is our own. It takes no memory. Refuses
/// `WriteFailed` where a write fails.
pub fn write_response<W: Write>(
    writer: &mut Counted<W>,
    answered: &Result<Option<&[u8]>, Refused>,
) -> Result<(), Refused>
    ensures ok { OnOk result (Writes (traffic W.contents writer.old writer.new)
        (texts.response_text (texts.answer_of answered.now))) }
    ensures front { OnErr result (WritesFront (traffic W.contents writer.old writer.new)
        (texts.response_text (texts.answer_of answered.now))) }
    ensures refusal { IfErr result (λ e. e ≡ WriteFailed) }
{
    match answered {
        Ok(body) => write_answer(writer, *body),
        Err(refused) => write_refusal(writer, Methods::Post, *refused),
    }
}
