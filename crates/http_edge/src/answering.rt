//! From what came of a request to its response.

ghost use Rattle.std.specs.Prelude.{◌≡◌, Ok, IfErr, IfOk, OnErr, OnOk};
ghost use Rattle.std.specs.Option.{option_map};
ghost use Rattle.http_message.specs.Status.{done_status, status_of as status_for};
ghost use Rattle.http_message.specs.Texts.{response_text};
ghost use Rattle.http_edge.specs.Exchange.{answer_in, refusal_in, served_of};
ghost use Rattle.http_edge.specs.declared.edge_fault.EdgeFault.TheVariants.{WriteFailed};
ghost use Rattle.streams.specs.Streams.{Writes, WritesFront, traffic};

use crate::edge_fault::EdgeFault;
use crate::served::Served;
use http_message::{status_of, write_response};
use std::io::Write;
use stored_state::TakenBytes;
use streams::{Counted, Refused};

/// The refusal of a message by the controller, if it is one.
fn refusal_of(taken: &TakenBytes) -> Option<Refused>
    ensures { result ≡ refusal_in taken.now.reply }
{
    match taken.reply {
        Ok(_) => None,
        Err(refusal) => Some(Refused::Core(refusal)),
    }
}

/// Writes the response to a request of which the message was taken. Gives up with `WriteFailed`
/// alone.
pub(crate) fn answer_step<W: Write>(
    writer: &mut Counted<W>,
    taken: &TakenBytes,
) -> Result<Served, EdgeFault>
    ensures told { IfOk result (λ told. told
        ≡ record { status = done_status; refusal = refusal_in taken.now.reply }) }
    ensures ok { OnOk result (Writes (traffic W.contents writer.old writer.new)
        (response_text (Ok (option_map (λ b. b.items) taken.now.answer)))) }
    ensures front { OnErr result (WritesFront (traffic W.contents writer.old writer.new)
        (response_text (Ok (option_map (λ b. b.items) taken.now.answer)))) }
    ensures fault { IfErr result (λ fault. fault ≡ WriteFailed) }
{
    let answer = match &taken.answer {
        Some(text) => Some(text.as_slice()),
        None => None,
    };
    match write_response(writer, &Ok(answer)) {
        Ok(()) => Ok(Served {
            status: 200,
            refusal: refusal_of(taken),
        }),
        Err(_) => Err(EdgeFault::WriteFailed),
    }
}

/// Writes the response to a request of which there is no step. Gives up with `WriteFailed` alone.
pub(crate) fn answer_refusal<W: Write>(
    writer: &mut Counted<W>,
    refused: &Refused,
) -> Result<Served, EdgeFault>
    ensures told { IfOk result (λ told. told
        ≡ record { status = status_for refused.now; refusal = Some refused.now }) }
    ensures ok { OnOk result (Writes (traffic W.contents writer.old writer.new)
        (response_text (Err refused.now))) }
    ensures front { OnErr result (WritesFront (traffic W.contents writer.old writer.new)
        (response_text (Err refused.now))) }
    ensures fault { IfErr result (λ fault. fault ≡ WriteFailed) }
{
    match write_response(writer, &Err(*refused)) {
        Ok(()) => Ok(Served {
            status: status_of(*refused).as_u16(),
            refusal: Some(*refused),
        }),
        Err(_) => Err(EdgeFault::WriteFailed),
    }
}

/// Writes the response to a request: of its step, or of why there is none. It takes no memory. The
/// response says that the connection is closed behind it, which is the caller's to do. Gives up
/// with `WriteFailed` alone, where a write failed, took no byte or was interrupted.
pub fn respond<W: Write>(
    writer: &mut Counted<W>,
    came: &Result<TakenBytes, Refused>,
) -> Result<Served, EdgeFault>
    // Proved: The response to what came of a request is written, and what is told of it answered,
    // by itself.
    // By `told`, `ok`, `front`, `fault`.
    ensures told { IfOk result (λ told. told ≡ served_of came.now) }
    ensures ok { OnOk result (Writes (traffic W.contents writer.old writer.new)
        (response_text (answer_in came.now))) }
    ensures front { OnErr result (WritesFront (traffic W.contents writer.old writer.new)
        (response_text (answer_in came.now))) }
    ensures fault { IfErr result (λ fault. fault ≡ WriteFailed) }
{
    match came {
        Ok(taken) => answer_step(writer, taken),
        Err(refused) => answer_refusal(writer, refused),
    }
}
