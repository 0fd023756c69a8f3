//! The answers that commands get.

ghost use Rattle.std.specs.Prelude.{◌≡◌, true, IfOk, IsOk};
ghost use Rattle.controller.specs.Reply as replies;
ghost use Rattle.controller.specs.Step as steps;
ghost use Rattle.controller.specs.Words as words;

use crate::body::Body;
use crate::command::Command;
use crate::message::Message;
use crate::outcome::Outcome;
use crate::queue_status::QueueStatus;
use crate::taken::Taken;
use std::alloc::{AllocError, Global};
use ticket_tree::{Duplicate, Id, Refusal, SpawnId};

/// The spawn that a message tells of.
pub fn spawn_in(body: &Body) -> SpawnId
    ensures { result ≡ replies.spawn_in body.now }
{
    match body {
        Body::Submit(part) => part.spawn_id(),
        Body::Return(part) => part.spawn_id(),
        Body::Abort(spawn_id) => *spawn_id,
        Body::Answer { spawn_id, .. } => *spawn_id,
    }
}

/// The command that a message gives. An answer gives none.
pub fn command_given(body: &Body) -> Option<Command>
    ensures { result ≡ replies.command_given body.now }
{
    match body {
        Body::Submit(_) => Some(Command::Submit),
        Body::Return(_) => Some(Command::Return),
        Body::Abort(_) => Some(Command::Abort),
        Body::Answer { .. } => None,
    }
}

/// Whether a message is one for a worker, else for a master: a command goes as its row says, and
/// the answer to it the other way.
pub fn is_for_worker(body: &Body) -> bool
    // Proved: A command is for a worker or for a master as its row says, and the answer to it for
    // the other.
    ensures { result ≡ words.is_for_worker body.now }
{
    match body {
        Body::Submit(_) => Command::Submit.row().is_to_worker,
        Body::Return(_) => Command::Return.row().is_to_worker,
        Body::Abort(_) => Command::Abort.row().is_to_worker,
        Body::Answer { of, .. } => !of.row().is_to_worker,
    }
}

/// The answer of the controller of a name to a message, at a time in seconds since 1970: to a
/// command it goes back to the sender and says what is told, and to an answer there is none, which
/// takes no memory.
pub fn answer_to(
    alloc: Global,
    name: &Id,
    message: &Message,
    at: u64,
    response: Result<QueueStatus, u16>,
) -> Result<Option<Message>, AllocError>
    // Proved: A command is answered to its sender; an answer isn't, which takes no memory.
    // By `answer`, `answers`; `spawn_in`, `command_given`.
    ensures answer { IfOk result (λ answer. answer
        ≡ replies.answer_to name.now message.now at response) }
    ensures answers { replies.is_answer message.now.body ≡ true → IsOk result }
{
    match command_given(&message.body) {
        None => Ok(None),
        Some(command) => Ok(Some(Message {
            sender: name.copy(alloc)?,
            receiver: message.sender.copy(alloc)?,
            at,
            body: Body::Answer {
                of: command,
                spawn_id: spawn_in(&message.body),
                result: response,
            },
        })),
    }
}

/// What comes of a message to the controller of a name, which takes it so or refuses it, at a time
/// in seconds since 1970. A command is answered, refused or not. To an answer there is none, which
/// takes no memory.
pub fn outcome_of(
    alloc: Global,
    name: &Id,
    message: &Message,
    at: u64,
    taken: Result<Taken, Refusal>,
) -> Result<Outcome, AllocError>
    // Proved: What comes of a message that is taken or refused is its reply, and the answer to a
    // command.
    // By `reply`, `answer`, `answers`.
    ensures reply { IfOk result (λ outcome. outcome.reply ≡ steps.reply_of taken) }
    ensures answer { IfOk result (λ outcome. outcome.answer
        ≡ replies.answer_to name.now message.now at (steps.response_of taken)) }
    ensures answers { replies.is_answer message.now.body ≡ true → IsOk result }
{
    let response = match &taken {
        Ok(taken) => taken.response,
        Err(refusal) => Err(refusal.number()),
    };
    let answer = answer_to(alloc, name, message, at, response)?;
    Ok(Outcome {
        reply: taken.map(|taken| taken.reply),
        answer,
    })
}
