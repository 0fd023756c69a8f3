//! What is written of the answer to a message, once the controller that sent it has taken that.

ghost use Rattle.std.specs.Prelude.{◌≡◌, ◌++◌, string_bytes, IfErr, IfOk, OnOk};
ghost use Rattle.std.specs.Option.{option_map};
ghost use Rattle.streams.specs.declared.refused.Refused.TheVariants.{Core};
ghost use Rattle.streams.specs.declared.fault.Fault.TheVariants.{Input};
ghost use Rattle.ticket_items.specs.declared.refusal.Refusal.TheVariants.{Memory};
ghost use Rattle.file_commands.specs.Answers as answers;

use crate::step::{push_text, reply_text};
use controller::answering::spawn_in;
use controller::{Body, Message, QueueStatus, Reply};
use jmf_message::refusal_told;
use refusal_rows::named_number;
use std::alloc::{AllocError, Global};
use stored_state::TakenBytes;
use streams::{Fault, Output};
use ticket_tree::{Id, Refusal, SpawnId};

/// The refusal of a number, if there is one. One that names a spawn is of this spawn.
fn refusal_numbered(number: u16, spawn: SpawnId) -> Option<Refusal>
    ensures { answers.IsNumbered number result }
{
    match number {
        1 => Some(Refusal::BadId),
        2 => Some(Refusal::DuplicateId),
        3 => Some(Refusal::UnresolvedLink),
        4 => Some(Refusal::TooDeep),
        5 => Some(Refusal::ReservedStatus),
        6 => Some(Refusal::BadText),
        7 => Some(Refusal::NotATree),
        10 => Some(Refusal::UnknownNode),
        11 => Some(Refusal::UnknownResource),
        12 => Some(Refusal::NotHeld(spawn)),
        13 => Some(Refusal::IsRoot),
        14 => Some(Refusal::NotLinked),
        15 => Some(Refusal::UnknownWorker),
        16 => Some(Refusal::NotOut),
        17 => Some(Refusal::TooManySpawns),
        18 => Some(Refusal::SameName),
        20 => Some(Refusal::UnknownSpawn),
        21 => Some(Refusal::WrongSender),
        22 => Some(Refusal::WrongShape),
        30 => Some(Refusal::UnknownEntry),
        31 => Some(Refusal::NotOpen),
        32 => Some(Refusal::ReadOnly),
        33 => Some(Refusal::NotInPart),
        34 => Some(Refusal::NotForWorkers),
        35 => Some(Refusal::NotDone),
        36 => Some(Refusal::BadPart),
        37 => Some(Refusal::Acknowledged),
        38 => Some(Refusal::Declined),
        40 => Some(Refusal::NotJson),
        41 => Some(Refusal::NotProfile),
        45 => Some(Refusal::WrongMessage),
        46 => Some(Refusal::WrongVersion),
        47 => Some(Refusal::BadState),
        90 => Some(Refusal::Memory),
        _ => None,
    }
}

/// A number and its name, where it has one.
fn number_text(alloc: Global, number: u16, refusal: Option<Refusal>) -> Result<String, AllocError>
    ensures { IfOk result (λ text. string_bytes text ≡ answers.number_text number refusal) }
{
    match refusal {
        Some(refusal) => named_number(alloc, number, refusal.name()),
        None => format!(in alloc; "{number}"),
    }
}

/// The line of a refusal, and of who refused.
fn refusal_line(alloc: Global, number: &str, sender: &str) -> Result<String, AllocError>
    ensures { IfOk result (λ line. string_bytes line
        ≡ answers.refusal_line number.now sender.now) }
{
    format!(in alloc; "Refused {number} by {sender}\n")
}

/// The line that tells that the controller of a name refused a message about a spawn, for the
/// refusal of a number: `Refused 21 WrongSender by press`. A number that is no refusal's has no
/// name.
pub fn refused_by(
    alloc: Global,
    number: u16,
    spawn: SpawnId,
    sender: &Id,
) -> Result<String, AllocError>
    ensures { IfOk result (λ line. answers.IsRefusedBy number sender.now (string_bytes line)) }
{
    let text = number_text(alloc, number, refusal_numbered(number, spawn))?;
    refusal_line(alloc, text.as_str(), sender.as_str())
}

/// The number of the refusal that an answer tells of, once it was taken so.
fn refusal_taken(reply: &Result<Reply, Refusal>, message: &Message) -> Option<u16>
    ensures { result ≡ answers.refusal_taken reply.now message.now.body }
{
    match reply {
        Ok(_) => refusal_told(message),
        Err(_) => None,
    }
}

/// The Status of the queue entry that an answer tells of, once it was taken so.
fn status_taken(reply: &Result<Reply, Refusal>, message: &Message) -> Option<QueueStatus>
    ensures { result ≡ answers.status_taken reply.now message.now.body }
{
    match (reply, &message.body) {
        (
            Ok(_),
            Body::Answer {
                result: Ok(status),
                ..
            },
        ) => Some(*status),
        _ => None,
    }
}

/// Appends the Status of a queue entry behind a space, if there is one.
fn push_status(text: &mut Vec<u8>, status: Option<QueueStatus>) -> Result<(), AllocError>
    ensures { OnOk result (text.new.items ≡ text.old.items ++ answers.status_behind status) }
{
    let Some(status) = status else {
        return Ok(());
    };
    text.push(b' ')?;
    text.extend_from_slice(status.word().as_bytes())
}

/// The line of who refused, if a number tells that an answer's sender did.
fn line_of(alloc: Global, refusal: Option<u16>, message: &Message) -> Result<String, AllocError>
    ensures { IfOk result (λ line. answers.IsRefusalLine refusal message.now.sender
        (string_bytes line)) }
{
    match refusal {
        Some(number) => refused_by(alloc, number, spawn_in(&message.body), &message.sender),
        None => Ok(String::new(alloc)),
    }
}

/// What is written of an answer that was taken so: the line of the reply, with the Status of the
/// queue entry behind it where the answer tells one; the text that goes out, if there is one; and
/// where the answer refuses, a line that tells who did. Such as `Noted S1 Running`. Refuses
/// `Memory` alone.
pub fn answer_output(alloc: Global, given: &TakenBytes, message: &Message) -> Result<Output, Fault>
    // Proved: What is written of the answer to a message is the reply, with the Status of the
    // queue entry behind it where the answer was taken and tells one; the text that goes out; and
    // who refused, where the answer was taken and refuses.
    // By `ok`, `memory`; `refused_by`.
    ensures ok { IfOk result (λ output. answers.IsOfAnswer message.now given.now.reply
        (option_map (λ b. b.items) given.now.answer) output.text.items output.refused) }
    ensures memory { IfErr result (λ f. f ≡ Input (Core Memory)) }
{
    let refusal = refusal_taken(&given.reply, message);
    let line = line_of(alloc, refusal, message)?;
    let mut text = reply_text(alloc, given.reply)?.into_bytes();
    push_status(&mut text, status_taken(&given.reply, message))?;
    text.push(b'\n')?;
    push_text(&mut text, &given.answer)?;
    text.extend_from_slice(line.as_bytes())?;
    Ok(Output {
        text,
        refused: given.reply.is_err() || refusal.is_some(),
    })
}
