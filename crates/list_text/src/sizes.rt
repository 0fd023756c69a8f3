//! How many bytes the messages of work have.

ghost use Rattle.std.specs.Prelude.{◌≡◌, length, true, IfOk};
ghost use Rattle.controller.specs.Words.{may_be_sent};
ghost use Rattle.spawn.specs.Records.{IsGood, is_out};
ghost use Rattle.list_text.specs.Sizes as sizes;

use controller::{Body, Message};
use jmf_message::encode;
use master_core::Master;
use spawn::{SpawnRec, part_for};
use std::alloc::{AllocError, Global};
use ticket_tree::{Duplicate, Part};
use worker_core::{Entry, Worker};

/// How many bytes the text of a message has.
fn message_size(alloc: Global, message: &Message) -> Result<u64, AllocError>
    requires { may_be_sent message.now.body ≡ true }
    ensures { IfOk result (λ size. size ≡ sizes.message_size message.now) }
{
    Ok(encode(alloc, message)?.as_slice().len() as u64)
}

/// The size of the message that sends the part of a master's spawn, which is out.
fn submit_size(alloc: Global, master: &Master, spawn: &SpawnRec) -> Result<u64, AllocError>
    requires out { is_out spawn.now ≡ true }
    requires good { IsGood master.now.ticket.rows spawn.now }
    ensures { IfOk result (λ size. size ≡ sizes.submit_size master.now spawn.now) }
{
    // It refuses for want of memory alone.
    let Ok(part) = part_for(alloc, master.ticket(), spawn) else {
        return Err(AllocError);
    };
    let message = Message {
        sender: master.name().copy(alloc)?,
        receiver: spawn.worker.copy(alloc)?,
        at: spawn.at,
        body: Body::Submit(part),
    };
    message_size(alloc, &message)
}

/// The size of the message that sends the part of a master's spawn, where it is out.
pub fn spawn_size(
    alloc: Global,
    master: &Master,
    spawn: &SpawnRec,
) -> Result<Option<u64>, AllocError>
    requires { is_out spawn.now ≡ true → IsGood master.now.ticket.rows spawn.now }
    ensures { IfOk result (λ size. size ≡ sizes.spawn_size master.now spawn.now) }
{
    if !spawn.is_out() {
        return Ok(None);
    }
    Ok(Some(submit_size(alloc, master, spawn)?))
}

/// The size of the message that gives a part back at a time.
fn return_size(alloc: Global, worker: &Worker, part: &Part, at: u64) -> Result<u64, AllocError>
    ensures { IfOk result (λ size. size ≡ sizes.return_size worker.now at part.now) }
{
    let message = Message {
        sender: worker.name().copy(alloc)?,
        receiver: worker.master().copy(alloc)?,
        at,
        body: Body::Return(part.copy(alloc)?),
    };
    message_size(alloc, &message)
}

/// The size of the message that gives the part of an entry back, as it is, where it keeps one.
pub fn entry_size(alloc: Global, worker: &Worker, entry: &Entry) -> Result<Option<u64>, AllocError>
    ensures { IfOk result (λ size. size ≡ sizes.entry_size worker.now entry.now) }
{
    match &entry.part {
        None => Ok(None),
        Some(part) => Ok(Some(return_size(alloc, worker, part, entry.at)?)),
    }
}
