//! The command, from a file and a URL to its exit status.

ghost use Rattle.std.specs.Prelude.{◌≡◌, ◌≤◌, true, IfOk, OnOk};
ghost use Rattle.std.specs.Option.{option_map};
ghost use Rattle.jdf_send.specs.OrderCommand.{EndsJournaled, EndsSendOrder, GivesOn, GivesOrder};
ghost use Rattle.journal.specs.Journal.{IsLeft};
ghost use Rattle.jdf_send.specs.OrderCommand.{IsCome, IsUntaken, SendsOn, SomeJournaled};
ghost use Rattle.jdf_send.specs.OrderCommand.{TakesAnswer, TakingJournaled};
ghost use Rattle.streams.specs.Streams.{traffic};

use crate::order_command::send_order::SendOrder;
use crate::send_command::{DONE, SendTo, no_place, post, tell_no_peer, tell_no_url, tell_status};
use document_commands::{CausedFault, give_up_caused};
use file_commands::{
    OrderOutput, answer_output, finish_noting, order_in_file, order_noted, step_output,
    take_in_file,
};
use http_message::MAX_BODY_BYTES;
use jmf_message::{Reply, decode};
use journal::Journal;
use keepers::Locks;
use peers_file::Destination;
use std::alloc::Global;
use std::io::{Read, Write};
use std::net::Net;
use std::time::Clock;
use streams::{Counted, Fault, Output, Refused, finish};
use ticket_tree::Refusal;

/// What came of a message that was sent on.
#[derive(Drop)]
enum OrderResult<'a> {
    /// The other controller refused it with this status.
    Refused(u16),
    /// The table of peers has no URL for its receiver.
    NoPeer,
    /// What serves there answered `DONE`, and with no message.
    Unanswered(&'a Destination),
    /// It answered, and this is what is written of the answer.
    Answered(Output),
}

/// What is written of an answer, which it hands to the controller in the file.
fn take_answer<R: Locks, J: Journal>(
    rt: &R,
    alloc: Global,
    order: &SendOrder<'_>,
    answer: &[u8],
    journal: &mut J,
) -> Result<Output, Fault>
    ensures ok { IfOk result (λ output. TakesAnswer order.now.file order.now.at answer.now
        output.text.items output.refused) }
    ensures journal { OnOk result (J.is_honest journal.old ≡ true →
        TakingJournaled J.held J.is_missed order.now.file order.now.at answer.now
        journal.old journal.new) }
    ensures behind { J.is_honest journal.old ≡ true → SomeJournaled J.held J.is_missed
        order.now.file order.now.at journal.old journal.new }
{
    let given = take_in_file(rt, alloc, order.file, None, answer, order.at, journal)?;
    let message = decode(alloc, answer)?;
    answer_output(alloc, &given, &message)
}

/// Posts a message to where it is sent, and has the controller in the file take the answer, if
/// there is one. Gives up as `send` and `take` do.
fn post_order<'a, R: Locks + Net + Clock, J: Journal>(
    rt: &R,
    alloc: Global,
    order: &SendOrder<'_>,
    to: &'a SendTo,
    message: &[u8],
    journal: &mut J,
) -> Result<OrderResult<'a>, CausedFault>
    ensures ok { IfOk result (IsCome order.now.file order.now.at) }
    // Proved: Where `order --send` took no answer, since another status came than 200 or no message
    // with that, or since no URL is known for the receiver, an honest journal holds what it held.
    // By `left`.
    // Not proved: that `order --send` tells which of these it was: tests show it.
    ensures left { IfOk result (λ came. IsUntaken came → J.is_honest journal.old ≡ true →
        IsLeft J.held J.is_missed journal.old journal.new) }
    ensures behind { J.is_honest journal.old ≡ true → SomeJournaled J.held J.is_missed
        order.now.file order.now.at journal.old journal.new }
{
    if message.len() > MAX_BODY_BYTES {
        return Err(CausedFault::without_cause(Fault::Input(Refused::TooLarge)));
    }
    let destination = match to.destination(alloc, message)? {
        Some(destination) => destination,
        None => return Ok(OrderResult::NoPeer),
    };
    let received = post(rt, alloc, destination, message)?;
    if received.status != DONE {
        return Ok(OrderResult::Refused(received.status));
    }
    let answer = received.body.as_slice();
    if answer.is_empty() {
        return Ok(OrderResult::Unanswered(destination));
    }
    match take_answer(rt, alloc, order, answer, journal) {
        Ok(output) => Ok(OrderResult::Answered(output)),
        Err(fault) => Err(CausedFault::at_path(rt, alloc, fault, order.file, "")),
    }
}

/// Tells that what serves at a destination answered `DONE`, and with no message. Answers the exit
/// status.
fn tell_unanswered<F: Write>(destination: &Destination, faults: &mut Counted<F>) -> u8
    ensures { result ≡ 1 }
{
    let host = destination.authority();
    let path = destination.path();
    let _ = writeln!(
        faults,
        "Answered with no message by http://{host}{path}: 200"
    );
    1
}

/// Sends a message on, and writes what comes of it. Answers the exit status.
fn send_on<R: Locks + Net + Clock, W: Write, F: Write, J: Journal>(
    rt: &R,
    alloc: Global,
    order: &SendOrder<'_>,
    to: &SendTo,
    message: &[u8],
    writer: &mut Counted<W>,
    faults: &mut Counted<F>,
    journal: &mut J,
) -> u8
    ensures sent { SendsOn order.now.file order.now.at (traffic W.contents writer.old writer.new)
        (traffic F.contents faults.old faults.new) result }
    ensures known { result ≤ 4 }
    ensures behind { J.is_honest journal.old ≡ true → SomeJournaled J.held J.is_missed
        order.now.file order.now.at journal.old journal.new }
{
    match post_order(rt, alloc, order, to, message, journal) {
        Ok(OrderResult::Answered(output)) => finish(Ok(output), writer, faults),
        Ok(OrderResult::Refused(status)) => tell_status(status, faults),
        Ok(OrderResult::NoPeer) => tell_no_peer(faults),
        Ok(OrderResult::Unanswered(destination)) => tell_unanswered(destination, faults),
        Err(caused) => give_up_caused(alloc, caused, faults),
    }
}

/// Writes the line of an order's reply, and sends on the message that goes out. Where the line
/// can't be written nothing is sent. Answers the exit status.
fn give_on<R: Locks + Net + Clock, W: Write, F: Write, J: Journal>(
    rt: &R,
    alloc: Global,
    order: &SendOrder<'_>,
    to: &SendTo,
    reply: Result<Reply, Refusal>,
    message: &[u8],
    writer: &mut Counted<W>,
    faults: &mut Counted<F>,
    journal: &mut J,
) -> u8
    ensures given { GivesOn order.now.file order.now.at reply
        (traffic W.contents writer.old writer.new)
        (traffic F.contents faults.old faults.new) result }
    ensures known { result ≤ 4 }
    ensures behind { J.is_honest journal.old ≡ true → SomeJournaled J.held J.is_missed
        order.now.file order.now.at journal.old journal.new }
{
    let status = finish(step_output(alloc, reply, &None), writer, faults);
    if status != 0 {
        return status;
    }
    send_on(rt, alloc, order, to, message, writer, faults, journal)
}

/// Gives out what an order gives out. Answers the exit status.
fn give_out<R: Locks + Net + Clock, W: Write, F: Write, J: Journal>(
    rt: &R,
    alloc: Global,
    order: &SendOrder<'_>,
    to: &SendTo,
    given: OrderOutput,
    writer: &mut Counted<W>,
    faults: &mut Counted<F>,
    journal: &mut J,
) -> u8
    ensures given { GivesOrder order.now.file order.now.at given.reply
        (option_map (λ b. b.items) given.message) given.notes.items
        (traffic W.contents writer.old writer.new)
        (traffic F.contents faults.old faults.new) result }
    ensures known { result ≤ 4 }
    ensures behind { J.is_honest journal.old ≡ true → SomeJournaled J.held J.is_missed
        order.now.file order.now.at journal.old journal.new }
{
    let OrderOutput {
        reply,
        message,
        notes,
    } = given;
    match message {
        Some(message) => {
            drop(notes);
            give_on(
                rt,
                alloc,
                order,
                to,
                reply,
                message.as_slice(),
                writer,
                faults,
                journal,
            )
        }
        None => finish_noting(order_noted(alloc, reply, &None, notes), writer, faults),
    }
}

/// Gives the controller in a file the order that the input is, as `order` does, and writes the line
/// of its reply. A message that goes out is posted to where `send` would send it, in place of being
/// written; the answer is handed to the controller in the file, as
/// `take` does at the same time, and what came of it is written: the reply, with the Status of the
/// queue entry behind it where the message was taken, and where it was refused a line more that
/// tells who refused. Each step is saved before its line is written; the file is locked for each
/// step alone. Answers the exit status: 0; 1 where the order, the message or the answer was
/// refused, no URL is known for its receiver, or 200 came with no message, which is told with the
/// URL, and then no step is made of it; for a text that is no such URL 2, and then nothing is read;
/// else that of the fault, which is told, as of `order`, `send` or `take`, with the path or the
/// address that it comes from and what the system says of that. The message may have been taken
/// then, and where 200 came with none; it can be sent once more by `Resend`. The lines of both
/// steps are appended to the journal as `order` and `take` append them.
pub fn run_send_order<R: Locks + Net + Clock, I: Read, W: Write, F: Write, J: Journal>(
    rt: &R,
    alloc: Global,
    order: &SendOrder<'_>,
    reader: &mut Counted<I>,
    writer: &mut Counted<W>,
    faults: &mut Counted<F>,
    journal: &mut J,
) -> u8
    // Proved: `order --send` writes the line of the reply of a step that was saved, as `order`
    // does; where a message goes out and that line was written with status 0, it writes behind it
    // what `answer_output` of `file_commands` writes of some answer that the controller in the file
    // has taken; or nothing, with status 1, or where the fault is told, with that fault's, which is
    // never 0. Or memory runs out for the URL or for that line, or the text begins with `@`, and
    // memory runs out for the peers' file that it names or that can't be loaded; or it gives up as
    // `order` does; or it reads and writes nothing, with status 2. The status is one of 0 to 4.
    // By `ends`.
    // Proved: An honest journal holds behind `order --send` the line of the order's step, and
    // behind that the line of the step by the answer, where there is one that the controller took;
    // where it gave up before the order's step, what it held, unless memory ran out behind the
    // save.
    // By `journal`.
    // Not proved: that status 2 is for what is no URL: cases show it.
    ensures ends { EndsSendOrder order.now.file order.now.at order.now.url.now
        (traffic I.remaining reader.old reader.new) (traffic W.contents writer.old writer.new)
        (traffic F.contents faults.old faults.new) result }
    ensures journal { J.is_honest journal.old ≡ true → EndsJournaled J.is_honest J.held
        J.is_missed order.now.file order.now.at order.now.url.now
        (traffic I.remaining reader.old reader.new) (traffic W.contents writer.old writer.new)
        (traffic F.contents faults.old faults.new) result journal.old journal.new }
{
    let to = match SendTo::of(rt, alloc, order.url) {
        Ok(Some(to)) => to,
        Ok(None) => return tell_no_url(order.url, faults),
        Err(fault) => {
            let caused = no_place(rt, alloc, fault, order.url);
            return give_up_caused(alloc, caused, faults);
        }
    };
    match order_in_file(rt, alloc, order.file, order.at, reader, journal) {
        Ok(given) => give_out(rt, alloc, order, &to, given, writer, faults, journal),
        Err(fault) => {
            let caused = CausedFault::at_path(rt, alloc, fault, order.file, "");
            give_up_caused(alloc, caused, faults)
        }
    }
}
