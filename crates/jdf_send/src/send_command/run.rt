//! The command, from a URL to its exit status.

ghost use Rattle.std.specs.Prelude.{◌≡◌, false, IfErr, IfOk};
ghost use Rattle.ticket_items.specs.declared.refusal.Refusal.TheVariants.{Memory};
ghost use Rattle.streams.specs.declared.refused.Refused.TheVariants.{Core};
ghost use Rattle.streams.specs.declared.fault.Fault.TheVariants.{Input};
ghost use Rattle.jdf_send.specs.SendCommand.{EndsAnswer, EndsSend, GivesAnswer};
ghost use Rattle.jdf_send.specs.SendCommand.{IsRefusalIn, IsUntold};
ghost use Rattle.jdf_send.specs.SendCommand.{TellsRefusal, answer_line};
ghost use Rattle.jdf_send.specs.declared.send_command.run.SendResult.TheVariants.{NoUrl};
ghost use Rattle.streams.specs.Streams.{IsUntouched, traffic};

use crate::send_command::exchanging::{post, read_message};
use crate::send_command::send_to::{SendTo, no_place};
use controller::answering::spawn_in;
use document_commands::{CausedFault, give_up_caused};
use file_commands::refused_by;
use jmf_message::{decode, refusal_told};
use std::alloc::Global;
use std::io::{Read, Write};
use std::net::Net;
use std::rt::Files;
use std::time::Clock;
use streams::{Counted, Fault, Output, finish, tell, write_bytes};

/// The status of a response to a message that was taken.
pub(crate) const DONE: u16 = 200;

/// What came of a message.
#[derive(Drop)]
enum SendResult {
    /// The text is no URL that a message can be sent to.
    NoUrl,
    /// The table of peers has no URL for the receiver of the message.
    NoPeer,
    /// The controller answered with this status, and with no message.
    Refused(u16),
    /// The controller took the message, and this is its answer.
    Answered(Vec<u8>),
}

/// Sends a message, and gives what came of it.
fn post_message<R: Files + Net + Clock, I: Read>(
    rt: &R,
    alloc: Global,
    url: &str,
    file: Option<&str>,
    reader: &mut Counted<I>,
) -> Result<SendResult, CausedFault>
    ensures { IfOk result (λ came. came ≡ NoUrl
        → IsUntouched (traffic I.remaining reader.old reader.new)) }
{
    let to = match SendTo::of(rt, alloc, url) {
        Ok(Some(to)) => to,
        Ok(None) => return Ok(SendResult::NoUrl),
        Err(fault) => return Err(no_place(rt, alloc, fault, url)),
    };
    let message = read_message(rt, alloc, file, reader)?;
    let destination = match to.destination(alloc, message.as_slice())? {
        Some(destination) => destination,
        None => return Ok(SendResult::NoPeer),
    };
    let received = post(rt, alloc, destination, message.as_slice())?;
    if received.status != DONE {
        return Ok(SendResult::Refused(received.status));
    }
    Ok(SendResult::Answered(Vec::from_slice(alloc, received.body.as_slice())?))
}

/// The text of an answer on a line, nothing if it has none.
fn answer_output(mut answer: Vec<u8>) -> Result<Output, Fault>
    ensures text { IfOk result (λ output. output.text.items ≡ answer_line answer.items) }
    ensures accepted { IfOk result (λ output. output.refused ≡ false) }
    ensures memory { IfErr result (λ fault. fault ≡ Input (Core Memory)) }
{
    if !answer.is_empty() {
        answer.push(b'\n')?;
    }
    Ok(Output {
        text: answer,
        refused: false,
    })
}

/// The line that tells who refused, if an answer refuses. Refuses what `decode` refuses it for, and
/// `Memory`.
fn refusal_in(alloc: Global, answer: &[u8]) -> Result<Option<String>, Fault>
    ensures ok { IfOk result (IsRefusalIn answer.now) }
    ensures refused { IfErr result (IsUntold answer.now) }
{
    if answer.is_empty() {
        return Ok(None);
    }
    let message = decode(alloc, answer)?;
    match refusal_told(&message) {
        None => Ok(None),
        Some(number) => {
            let spawn = spawn_in(&message.body);
            Ok(Some(refused_by(alloc, number, spawn, &message.sender)?))
        }
    }
}

/// Tells who refused, if an answer refuses; or why it is no message. Answers the exit status.
fn tell_refusal<F: Write>(refusal: Result<Option<String>, Fault>, faults: &mut Counted<F>) -> u8
    ensures { TellsRefusal refusal (traffic F.contents faults.old faults.new) result }
{
    match refusal {
        Ok(None) => 0,
        Ok(Some(line)) => {
            let _ = write_bytes(faults, line.as_bytes());
            1
        }
        Err(fault) => {
            tell(faults, &fault);
            fault.status()
        }
    }
}

/// Writes an answer. Answers the exit status.
fn give_text<W: Write, F: Write>(
    answer: Vec<u8>,
    writer: &mut Counted<W>,
    faults: &mut Counted<F>,
) -> u8
    ensures { GivesAnswer answer.items (traffic W.contents writer.old writer.new)
        (traffic F.contents faults.old faults.new) result }
{
    finish(answer_output(answer), writer, faults)
}

/// Writes an answer, and behind that tells whether it refuses. Answers the exit status.
fn give_answer<W: Write, F: Write>(
    alloc: Global,
    answer: Vec<u8>,
    writer: &mut Counted<W>,
    faults: &mut Counted<F>,
) -> u8
    ensures { EndsAnswer answer.items (traffic W.contents writer.old writer.new)
        (traffic F.contents faults.old faults.new) result }
{
    let refusal = refusal_in(alloc, answer.as_slice());
    let status = give_text(answer, writer, faults);
    if status != 0 {
        drop(refusal);
        return status;
    }
    tell_refusal(refusal, faults)
}

/// Tells that a text is no URL that a message can be sent to. Answers the exit status.
pub(crate) fn tell_no_url<F: Write>(url: &str, faults: &mut Counted<F>) -> u8
    ensures { result ≡ 2 }
{
    let _ = writeln!(
        faults,
        "error: '{url}' isn't of the form http://host[:port]/path"
    );
    2
}

/// Tells that the table of peers has no URL for the receiver of a message. Answers the exit status.
pub(crate) fn tell_no_peer<F: Write>(faults: &mut Counted<F>) -> u8
    ensures { result ≡ 1 }
{
    let _ = writeln!(faults, "No URL is known for the receiver");
    1
}

/// Tells the status that a message was refused with. Answers the exit status.
pub(crate) fn tell_status<F: Write>(status: u16, faults: &mut Counted<F>) -> u8
    ensures { result ≡ 1 }
{
    let _ = writeln!(faults, "Refused by the controller: {status}");
    1
}

/// Sends the message that a file holds, or that comes on standard input where no file is named or
/// that is `-`, to the controller that serves at a URL, `http://host[:port]/path`, or that a peers'
/// file has for its receiver, whose path stands behind a `@`, and writes the text of its answer on
/// a line, if it has one. Answers the exit status: 0 where the message was taken; 1 where the
/// answer refuses it, which is told with who refused, but for a spawn that is declined as it was
/// asked to be given up; 1 too where the status of the response isn't 200 or no URL is known for
/// the receiver, which is told, and then nothing is written; 3 where what was answered is no
/// message. For a text that is no such URL it reads and sends nothing, tells that, and answers 2.
/// Where it gives up, it tells why and answers the status of the fault: 1 where memory ran out, 3
/// where the message has more bytes than `MAX_BODY_BYTES`, and it isn't sent; 4 where a file, a
/// stream or the connection failed or the response isn't one, and then the message may have been
/// taken. Behind a fault of a file or of the connection stands its path or address, and what the
/// system says of it.
pub fn run_send<R: Files + Net + Clock, I: Read, W: Write, F: Write>(
    rt: &R,
    alloc: Global,
    url: &str,
    file: Option<&str>,
    reader: &mut Counted<I>,
    writer: &mut Counted<W>,
    faults: &mut Counted<F>,
) -> u8
    // Proved: `send` gives out some answer, on a line; where that refuses, it tells who did behind
    // it, with status 1, and where it is no message why, with that fault's status. Or it writes
    // nothing, with status 1; or with 2, and then it reads nothing either; or it gives up, with
    // the fault's line and status.
    // Not proved: that the answer is the one that came, and that 2 is for what is no URL: tests
    // show it.
    ensures { EndsSend (traffic I.remaining reader.old reader.new)
        (traffic W.contents writer.old writer.new)
        (traffic F.contents faults.old faults.new) result }
{
    match post_message(rt, alloc, url, file, reader) {
        Ok(SendResult::Answered(answer)) => give_answer(alloc, answer, writer, faults),
        Ok(SendResult::Refused(status)) => tell_status(status, faults),
        Ok(SendResult::NoUrl) => tell_no_url(url, faults),
        Ok(SendResult::NoPeer) => tell_no_peer(faults),
        Err(caused) => give_up_caused(alloc, caused, faults),
    }
}
