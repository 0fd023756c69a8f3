//! What a worker does with a message.

ghost use Rattle.std.specs.Prelude.{◌≡◌, ℕ, List, true, false, None, OnOk, OnErr, IfOk, IsOk};
ghost use Rattle.ticket_rows.specs.Copies.{with_copies};
ghost use Rattle.ticket_rows.specs.Ticket.{IsValid};
ghost use Rattle.controller.specs.Reply as replies;
ghost use Rattle.worker_core.specs.Messages as messages;
ghost use Rattle.worker_core.specs.Worker as worker;
ghost use Rattle.worker_core.specs.declared.entry.Entry.{Entry as EntrySeen};

use crate::entries::Entries;
use crate::entry::Entry;
use crate::ordering::end_entry;
use crate::stage::Stage;
use controller::answering::{is_for_worker, outcome_of};
use controller::{Body, Message, Outcome, QueueStatus, Reply, Taken};
use std::alloc::{AllocError, Global};
use ticket_tree::{Id, Part, Refusal, SpawnId};
use world_items::End;

/// What a worker makes of what a message says.
#[derive(Clone, Copy)]
pub struct Judgement {
    /// Why it is refused, if it is.
    pub refusal: Option<Refusal>,
    /// What it is taken as, if it isn't.
    pub taken: Taken,
}

/// Why a part that goes out is refused.
fn part_refusal(entries: &Entries, part: &Part) -> Option<Refusal>
    ensures { result ≡ messages.part_refusal entries.now part.now }
{
    if entries.entry_of(part.spawn_id()).is_some() || part.is_sound() {
        None
    } else {
        Some(Refusal::BadPart)
    }
}

/// Why an answer that is of an entry is refused: the first reason that holds.
fn ended_refusal(entry: &Entry) -> Option<Refusal>
    ensures { result ≡ messages.ended_refusal entry.now }
{
    if entry.phase.is_declined() {
        return Some(Refusal::UnknownEntry);
    }
    if entry.phase.is_open() {
        return Some(Refusal::NotDone);
    }
    None
}

/// Why an answer is refused: the first reason that holds.
fn answer_refusal(entries: &Entries, spawn: SpawnId) -> Option<Refusal>
    ensures { result ≡ messages.answer_refusal entries.now spawn }
{
    match entries.entry_of(spawn) {
        None => Some(Refusal::UnknownEntry),
        Some(entry) => ended_refusal(entry),
    }
}

/// What an answer is taken as.
fn answer_taken(entries: &Entries, spawn: SpawnId, response: Result<QueueStatus, u16>) -> Taken
    ensures reply { (name : List ℕ) (master : List ℕ) → result.reply
        ≡ (messages.on_answer spawn response (worker.state name master entries.now)).reply }
    ensures response { (name : List ℕ) (master : List ℕ) → result.response
        ≡ (messages.on_answer spawn response (worker.state name master entries.now)).response }
{
    match response {
        Ok(_) => Taken {
            reply: Reply::Acked(spawn),
            response: entries.response_in(spawn),
        },
        Err(_) => Taken {
            reply: Reply::Noted(spawn),
            response: entries.response_in(spawn),
        },
    }
}

/// What a command is taken as that comes to an entry which it doesn't change.
fn again_reply(spawn: SpawnId, entry: &Entry) -> Reply
    ensures { result ≡ messages.again_reply spawn entry.now }
{
    if entry.phase.is_declined() {
        Reply::Declined(spawn)
    } else {
        Reply::Again(spawn)
    }
}

/// What it is taken as that the spawn of an entry is to be given up.
fn abort_reply(spawn: SpawnId, entry: &Entry) -> Reply
    ensures { result ≡ messages.abort_reply spawn entry.now }
{
    if entry.phase.is_open() {
        Reply::Ended(spawn)
    } else {
        again_reply(spawn, entry)
    }
}

/// What a part that goes out is taken as: it gets an entry where there is none.
fn part_taken(entries: &Entries, part: &Part) -> Taken
    ensures reply { (name : List ℕ) (master : List ℕ) (at : ℕ) → result.reply
        ≡ (messages.on_submit part.now at (worker.state name master entries.now)).reply }
    ensures response { (name : List ℕ) (master : List ℕ) (at : ℕ) → result.response
        ≡ (messages.on_submit part.now at (worker.state name master entries.now)).response }
{
    match entries.entry_of(part.spawn_id()) {
        None => Taken {
            reply: Reply::Taken(part.spawn_id()),
            response: Ok(QueueStatus::Running),
        },
        Some(entry) => Taken {
            reply: again_reply(part.spawn_id(), entry),
            response: entry.phase.response(),
        },
    }
}

/// What is told of an entry to the command to give its spawn up, as the entry is after that.
fn abort_told(entry: &Entry) -> Result<QueueStatus, u16>
    ensures { (at : ℕ) → result
        ≡ worker.response_of_stage (messages.aborted_entry at entry.now).phase }
{
    if entry.phase.is_open() {
        Ok(QueueStatus::Aborted)
    } else {
        entry.phase.response()
    }
}

/// What it is taken as that a spawn is to be given up.
fn abort_taken(entries: &Entries, spawn: SpawnId) -> Taken
    ensures reply { (name : List ℕ) (master : List ℕ) (at : ℕ) → result.reply
        ≡ (messages.on_abort spawn at (worker.state name master entries.now)).reply }
    ensures response { (name : List ℕ) (master : List ℕ) (at : ℕ) → result.response
        ≡ (messages.on_abort spawn at (worker.state name master entries.now)).response }
{
    match entries.entry_of(spawn) {
        None => Taken {
            reply: Reply::Declined(spawn),
            response: Stage::Declined.response(),
        },
        Some(entry) => Taken {
            reply: abort_reply(spawn, entry),
            response: abort_told(entry),
        },
    }
}

/// Judges what a message says, whoever sent it. Needs no memory.
pub fn judge(entries: &Entries, body: &Body) -> Judgement
    ensures refusal { result.refusal ≡ messages.body_refusal body.now entries.now }
    ensures reply { (name : List ℕ) (master : List ℕ) (at : ℕ) → result.taken.reply
        ≡ (messages.on_body body.now at (worker.state name master entries.now)).reply }
    ensures response { (name : List ℕ) (master : List ℕ) (at : ℕ) → result.taken.response
        ≡ (messages.on_body body.now at (worker.state name master entries.now)).response }
{
    match body {
        Body::Submit(part) => Judgement {
            refusal: part_refusal(entries, part),
            taken: part_taken(entries, part),
        },
        Body::Return(part) => Judgement {
            refusal: None,
            taken: Taken {
                reply: Reply::Already(part.spawn_id()),
                response: entries.response_in(part.spawn_id()),
            },
        },
        Body::Abort(spawn_id) => Judgement {
            refusal: None,
            taken: abort_taken(entries, *spawn_id),
        },
        Body::Answer {
            spawn_id,
            result,
            ..
        } => Judgement {
            refusal: answer_refusal(entries, *spawn_id),
            taken: answer_taken(entries, *spawn_id, *result),
        },
    }
}

/// Why a message is refused by the worker of a name and with such a master, where it is refused so
/// for what it says: the first reason that holds. Needs no memory.
fn refusal_of(
    name: &Id,
    master: &Id,
    message: &Message,
    for_body: Option<Refusal>,
) -> Option<Refusal>
    ensures { (entries : List EntrySeen) → for_body ≡ messages.body_refusal message.now.body entries
        → result ≡ messages.take_refusal message.now (worker.state name.now master.now entries) }
{
    if message.receiver != *name || !is_for_worker(&message.body) {
        return Some(Refusal::WrongMessage);
    }
    if message.sender != *master {
        return Some(Refusal::WrongSender);
    }
    for_body
}

/// Makes an entry of a part that is taken at a time, where there is none of its spawn.
fn enter(entries: &mut Entries, part: Part, at: u64) -> Result<(), AllocError>
    ensures ok { (name : List ℕ) (master : List ℕ) → OnOk result
        (worker.state name master entries.new
        ≡ (messages.on_submit part at (worker.state name master entries.old)).next) }
    ensures err { OnErr result (entries.new ≡ entries.old) }
    ensures valid { IsValid (with_copies part.rows part.rw part.ro) }
{
    let entry = Entry::new(part, at);
    if entries.entry_of(entry.spawn_id).is_none() {
        entries.push(entry)?;
    }
    Ok(())
}

/// Ends the work on an entry that is open, as its spawn is to be given up.
fn abort(alloc: Global, entry: &mut Entry, at: u64) -> Result<(), AllocError>
    ensures ok { OnOk result (entry.new ≡ messages.aborted_entry at entry.old) }
    ensures err { OnErr result (entry.new ≡ entry.old) }
{
    if !entry.phase.is_open() {
        return Ok(());
    }
    match end_entry(alloc, entry, End::Aborted, at) {
        Ok(()) => Ok(()),
        Err(_) => Err(AllocError),
    }
}

/// Takes it that a spawn is to be given up: its entry is ended if it is open, and where there is
/// none the spawn is declined, for good.
fn give_up(alloc: Global, entries: &mut Entries, spawn: SpawnId, at: u64) -> Result<(), AllocError>
    ensures ok { (name : List ℕ) (master : List ℕ) → OnOk result
        (worker.state name master entries.new
        ≡ (messages.on_abort spawn at (worker.state name master entries.old)).next) }
    ensures err { OnErr result (entries.new ≡ entries.old) }
{
    match entries.place_of(spawn) {
        None => {
            entries.push(Entry::new_declined(spawn, at))?;
            Ok(())
        }
        Some(place) => abort(alloc, &mut entries.list[place], at),
    }
}

/// Closes the entry of a part that was given back, if it has come.
fn take_answer(entries: &mut Entries, spawn: SpawnId, response: Result<QueueStatus, u16>)
    ensures { (name : List ℕ) (master : List ℕ) → worker.state name master entries.new
        ≡ (messages.on_answer spawn response (worker.state name master entries.old)).next }
{
    if response.is_ok() {
        entries.close(spawn);
    }
}

/// Takes what a message says that isn't refused. An answer takes no memory.
fn take_body(alloc: Global, entries: &mut Entries, body: Body, at: u64) -> Result<(), AllocError>
    ensures ok { (name : List ℕ) (master : List ℕ) → OnOk result
        (worker.state name master entries.new
        ≡ (messages.on_body body at (worker.state name master entries.old)).next) }
    ensures err { OnErr result (entries.new ≡ entries.old) }
    ensures valid { messages.IsValidBody body }
    ensures answers { replies.is_answer body ≡ true → IsOk result }
{
    match body {
        Body::Submit(part) => enter(entries, part, at),
        Body::Return(_) => Ok(()),
        Body::Abort(spawn_id) => give_up(alloc, entries, spawn_id, at),
        Body::Answer {
            spawn_id,
            result,
            ..
        } => {
            take_answer(entries, spawn_id, result);
            Ok(())
        }
    }
}

/// Takes a message as the worker of a name that has these entries of its master.
pub fn do_take(
    alloc: Global,
    name: &Id,
    master: &Id,
    entries: &mut Entries,
    message: Message,
    at: u64,
) -> Result<Outcome, AllocError>
    ensures state { OnOk result (worker.state name.now master.now entries.new
        ≡ (messages.take_step message at
        (worker.state name.now master.now entries.old)).next) }
    ensures reply { IfOk result (λ outcome. outcome.reply ≡ (messages.take_step message at
        (worker.state name.now master.now entries.old)).reply) }
    ensures answer { IfOk result (λ outcome. outcome.answer ≡ (messages.take_step message at
        (worker.state name.now master.now entries.old)).sent) }
    ensures err { OnErr result (entries.new ≡ entries.old) }
    ensures answers { replies.is_answer message.body ≡ true → IsOk result }
    ensures valid { OnOk result (messages.take_refusal message
        (worker.state name.now master.now entries.old) ≡ None
        → messages.IsValidBody message.body) }
{
    let judged = judge(entries, &message.body);
    if let Some(refusal) = refusal_of(name, master, &message, judged.refusal) {
        return outcome_of(alloc, name, &message, at, Err(refusal));
    }
    let outcome = outcome_of(alloc, name, &message, at, Ok(judged.taken))?;
    take_body(alloc, entries, message.body, at)?;
    Ok(outcome)
}
