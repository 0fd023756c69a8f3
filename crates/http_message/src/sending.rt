//! Sending a request.

ghost use Rattle.std.specs.Prelude.{◌≡◌, true, OnOk, OnErr, IfErr};
ghost use Rattle.std.specs.Char.{is_ascii_graphic};
ghost use Rattle.std.specs.List.{list_all};
ghost use Rattle.streams.specs.declared.refused.Refused.TheVariants.{WriteFailed};
ghost use Rattle.streams.specs.Streams.{Writes, WritesFront, traffic};
ghost use Rattle.http_message.specs.Texts.{request_text, request_to};
ghost use Rattle.http_message.specs.Texts as texts;

use crate::lines::{BEFORE_LENGTH, BEHIND_LENGTH, TYPE_LINE};
use crate::pieces::write_pieces;
use itoa::Buffer;
use std::io::Write;
use streams::{Counted, Refused};

fn are_visible(text: &[u8]) -> bool
    ensures { result ≡ list_all is_ascii_graphic text.now }
{
    text.iter().all(|byte| byte.is_ascii_graphic())
}

/// Whether a text is one word of visible ASCII, which it has to be to stand in a head as the host
/// or the target of a request (RFC 9112).
pub fn is_word(text: &str) -> bool
    // Proved: Whether a text is one word of visible ASCII is told.
    ensures { result ≡ texts.is_word text.now }
{
    if text.is_empty() {
        return false;
    }
    are_visible(text.as_bytes())
}

/// Writes the request that posts the body to a target of a host.
fn write_request<'a, W: Write>(
    writer: &mut Counted<W>,
    host: &'a [u8],
    target: &'a [u8],
    body: &'a [u8],
) -> Result<(), Refused>
    ensures ok { OnOk result (Writes (traffic W.contents writer.old writer.new)
        (request_to host.now target.now body.now)) }
    ensures front { OnErr result (WritesFront (traffic W.contents writer.old writer.new)
        (request_to host.now target.now body.now)) }
    ensures refusal { IfErr result (λ e. e ≡ WriteFailed) }
{
    let mut buffer = Buffer::new();
    let length = buffer.format(body.len()).as_bytes();
    write_pieces(
        writer,
        &[
            b"POST ",
            target,
            b" HTTP/1.1\r\nHost: ",
            host,
            b"\r\n",
            TYPE_LINE,
            BEFORE_LENGTH,
            length,
            BEHIND_LENGTH,
            body,
        ],
    )
}

/// Writes a request that posts the body to a target of a host. Its form is that of RFC 9112. It
/// takes no memory. Refuses `WriteFailed` where a write fails.
pub fn send_to<W: Write>(
    writer: &mut Counted<W>,
    host: &str,
    target: &str,
    body: &[u8],
) -> Result<(), Refused>
    // Wants: a host and a target, each of them one word of visible ASCII.
    requires host { texts.is_word host.now ≡ true }
    requires target { texts.is_word target.now ≡ true }
    ensures ok { OnOk result (Writes (traffic W.contents writer.old writer.new)
        (request_to host.now target.now body.now)) }
    ensures front { OnErr result (WritesFront (traffic W.contents writer.old writer.new)
        (request_to host.now target.now body.now)) }
    ensures refusal { IfErr result (λ e. e ≡ WriteFailed) }
{
    write_request(writer, host.as_bytes(), target.as_bytes(), body)
}

/// Writes a request that posts the body. Its form is that of RFC 9112; its target and its host are
/// our own. It takes no memory. Refuses `WriteFailed` where a write fails.
pub fn send<W: Write>(writer: &mut Counted<W>, body: &[u8]) -> Result<(), Refused>
    // Proved: A request and a response are written as their texts, or a front of these where a
    // write failed.
    // By `ok`, `front`; `send_to`, `write_response`, `write_missing`: `ok`, `front`.
    ensures ok { OnOk result
        (Writes (traffic W.contents writer.old writer.new) (request_text body.now)) }
    ensures front { OnErr result
        (WritesFront (traffic W.contents writer.old writer.new) (request_text body.now)) }
    // Proved: Where a text is written, only a write that failed is refused.
    // By `refusal`; `send_to`, `write_response`, `write_missing`: `refusal`.
    ensures refusal { IfErr result (λ e. e ≡ WriteFailed) }
{
    send_to(writer, "127.0.0.1", "/jmf", body)
}
