//! What a master does with a message.

ghost use Rattle.std.specs.Prelude.{◌≡◌, ℕ, true, false, OnOk, OnErr, IsOk, Ok, Some, None};
ghost use Rattle.ticket_tree.specs.Part.{PartCopy};
ghost use Rattle.controller.specs.Reply as replies;
ghost use Rattle.spawn.specs.Records.{is_out};
ghost use Rattle.spawn.specs.declared.records.spawn_rec.SpawnRec.{SpawnRec};
ghost use Rattle.merge.specs.Alike as alike;
ghost use Rattle.master_core.specs.Master as masters;
ghost use Rattle.master_core.specs.Messages as messages;

use crate::master::Master;
use crate::records::{is_spawn_out, place_of, record_of};
use controller::answering::{is_for_worker, spawn_in};
use controller::{Body, Command, Message, QueueStatus, Reply, Taken};
use merge::{fits, merge_fitting};
use spawn::{Phase, SpawnRec};
use std::alloc::{AllocError, Global};
use ticket_tree::{Part, Refusal, SpawnId, Ticket};

/// What a master makes of what a message says.
#[derive(Clone, Copy)]
pub(crate) struct Judgement {
    /// Why it is refused, if it is.
    pub(crate) refusal: Option<Refusal>,
    /// What it is taken as, if it isn't.
    pub(crate) taken: Taken,
}

/// Why a part that comes back from a spawn is refused.
fn return_refusal(ticket: &Ticket, spawn: &SpawnRec, part: &Part) -> Option<Refusal>
    ensures { result
        ≡ messages.return_refusal spawn.now.phase (alike.is_fit ticket.now spawn.now part.now) }
{
    match spawn.phase {
        Phase::Out => {
            if fits(ticket, spawn, part) {
                None
            } else {
                Some(Refusal::WrongShape)
            }
        }
        Phase::Merged => None,
        Phase::Withdrawn => Some(Refusal::NotOut),
    }
}

/// Whether the answer to a command tells that its taker declines a spawn that it hasn't begun.
fn is_declined(asked: Command, response: Result<QueueStatus, u16>) -> bool
    ensures { result ≡ messages.is_declined asked response }
{
    match (asked, response) {
        (Command::Submit, _) => false,
        (Command::Return, _) => false,
        (Command::Abort, Ok(_)) => false,
        (Command::Abort, Err(reason)) => reason == Refusal::Declined.number(),
    }
}

/// The Status of the queue entry of a part that came back.
fn end_of_part(part: &Part) -> QueueStatus
    ensures { result ≡ messages.end_of_part part.now }
{
    match part.rows().first() {
        None => QueueStatus::Completed,
        Some(root) => {
            if root.status.as_str() == "Aborted" {
                QueueStatus::Aborted
            } else {
                QueueStatus::Completed
            }
        }
    }
}

/// What is made of what tells of a spawn and changes nothing.
fn noted(spawn: SpawnId) -> Judgement
    ensures refusal { result.refusal ≡ None }
    ensures reply { result.taken.reply ≡ Reply.Noted spawn }
    ensures response { result.taken.response ≡ Ok QueueStatus.Completed }
{
    Judgement {
        refusal: None,
        taken: Taken {
            reply: Reply::Noted(spawn),
            response: Ok(QueueStatus::Completed),
        },
    }
}

impl Master {
    /// Why a part that comes back is refused, where its spawn is one of the master's.
    fn part_refusal(&self, part: &Part) -> Option<Refusal>
        ensures { (r : SpawnRec) → masters.record_of self.now.records part.now.spawn_id ≡ Some r
            → result ≡ messages.return_refusal r.phase (alike.is_fit self.now.ticket r part.now) }
    {
        match record_of(self.records(), part.spawn_id()) {
            None => None,
            Some(spawn) => return_refusal(self.ticket(), spawn, part),
        }
    }

    /// What a part that comes back is taken as: it is put in while its spawn is out, or was before.
    fn part_taken(&self, part: &Part) -> Taken
        ensures reply { (at : ℕ) → result.reply ≡ (messages.on_return part.now at self.now).reply }
        ensures response { (at : ℕ) → result.response
            ≡ (messages.on_return part.now at self.now).response }
    {
        let spawn_id = part.spawn_id();
        let reply = if is_spawn_out(self.records(), spawn_id) {
            Reply::Merged(spawn_id)
        } else {
            Reply::Already(spawn_id)
        };
        Taken {
            reply,
            response: Ok(end_of_part(part)),
        }
    }

    /// What is made of it that the worker of a spawn declines it: that is freed while it is out.
    fn declined(&self, spawn: SpawnId) -> Judgement
        ensures refusal { result.refusal ≡ None }
        ensures reply { (at : ℕ) → result.taken.reply
            ≡ (messages.on_decline spawn at self.now).reply }
        ensures response { (at : ℕ) → result.taken.response
            ≡ (messages.on_decline spawn at self.now).response }
    {
        if !is_spawn_out(self.records(), spawn) {
            return noted(spawn);
        }
        Judgement {
            refusal: None,
            taken: Taken {
                reply: Reply::Freed(spawn),
                response: Ok(QueueStatus::Completed),
            },
        }
    }

    /// Judges what a message says, whoever sent it. Needs no memory.
    pub(crate) fn judge(&self, body: &Body) -> Judgement
        ensures refusal { (r : SpawnRec)
            → masters.record_of self.now.records (replies.spawn_in body.now) ≡ Some r
            → result.refusal ≡ messages.body_refusal body.now self.now r }
        ensures reply { (at : ℕ) → result.taken.reply
            ≡ (messages.on_body body.now at self.now).reply }
        ensures response { (at : ℕ) → result.taken.response
            ≡ (messages.on_body body.now at self.now).response }
    {
        match body {
            Body::Submit(part) => noted(part.spawn_id()),
            Body::Return(part) => Judgement {
                refusal: self.part_refusal(part),
                taken: self.part_taken(part),
            },
            Body::Abort(spawn_id) => noted(*spawn_id),
            Body::Answer {
                of,
                spawn_id,
                result,
            } => {
                if is_declined(*of, *result) {
                    self.declined(*spawn_id)
                } else {
                    noted(*spawn_id)
                }
            }
        }
    }

    /// Why a message is refused, where it is refused so for what it says: the first reason that
    /// holds. Needs no memory.
    pub(crate) fn refusal_of(&self, message: &Message, for_body: Option<Refusal>) -> Option<Refusal>
        requires { (r : SpawnRec)
            → masters.record_of self.now.records (replies.spawn_in message.now.body) ≡ Some r
            → for_body ≡ messages.body_refusal message.now.body self.now r }
        ensures { result ≡ messages.take_refusal message.now self.now }
    {
        if message.receiver != *self.name() || is_for_worker(&message.body) {
            return Some(Refusal::WrongMessage);
        }
        match record_of(self.records(), spawn_in(&message.body)) {
            None => Some(Refusal::UnknownSpawn),
            Some(spawn) => {
                if message.sender != spawn.worker {
                    return Some(Refusal::WrongSender);
                }
                for_body
            }
        }
    }

    /// What it takes a message as, and what a command is told, unless it refuses it. Needs no
    /// memory.
    pub fn taken_as(&self, body: &Body) -> Taken
        // Proved: What a message is taken as, and what its command is told, is told before.
        // By `reply`, `response`.
        ensures reply { (at : ℕ) → result.reply ≡ (messages.on_body body.now at self.now).reply }
        ensures response { (at : ℕ) → result.response
            ≡ (messages.on_body body.now at self.now).response }
    {
        self.judge(body).taken
    }

    /// Takes a part that comes back: where its spawn is out it is put in, at a time, and the master
    /// then holds what the spawn claimed.
    fn take_part(&mut self, alloc: Global, part: Part, at: u64) -> Result<(), AllocError>
        requires { (r : SpawnRec) → masters.record_of self.old.records part.spawn_id ≡ Some r
            → is_out r ≡ true → alike.is_fit self.old.ticket r part ≡ true }
        ensures ok { OnOk result (self.new ≡ (messages.on_return part at self.old).next) }
        ensures err { OnErr result (self.new ≡ self.old) }
    {
        let spawn = part.spawn_id();
        if !is_spawn_out(self.records.as_slice(), spawn) {
            return Ok(());
        }
        let record = &mut self.records[place_of(spawn)];
        merge_fitting(alloc, &mut self.ticket, record, part, at).or(Err(AllocError))?;
        self.holders.free(&self.ticket, record);
        Ok(())
    }

    /// Takes the answer to a command, at a time. It takes no memory unless it frees its spawn.
    fn take_answer(
        &mut self,
        alloc: Global,
        asked: Command,
        spawn: SpawnId,
        response: Result<QueueStatus, u16>,
        at: u64,
    ) -> Result<(), AllocError>
        ensures ok { OnOk result
            (self.new ≡ (messages.on_body (Body.Answer asked spawn response) at self.old).next) }
        ensures err { OnErr result (self.new ≡ self.old) }
        ensures noted { replies.is_freed
            (messages.on_body (Body.Answer asked spawn response) at self.old).reply ≡ false
            → IsOk result }
    {
        if is_declined(asked, response) {
            self.free(alloc, spawn, at)
        } else {
            Ok(())
        }
    }

    /// Takes what a message says that isn't refused. An answer takes no memory unless it frees a
    /// spawn.
    pub(crate) fn take_body(&mut self, alloc: Global, body: Body, at: u64) -> Result<(), AllocError>
        requires { (p : PartCopy) (r : SpawnRec) → body ≡ Body.Return p
            → masters.record_of self.old.records p.spawn_id ≡ Some r → is_out r ≡ true
            → alike.is_fit self.old.ticket r p ≡ true }
        ensures ok { OnOk result (self.new ≡ (messages.on_body body at self.old).next) }
        ensures err { OnErr result (self.new ≡ self.old) }
        ensures answers { replies.is_answer body ≡ true
            → replies.is_freed (messages.on_body body at self.old).reply ≡ false → IsOk result }
    {
        match body {
            Body::Submit(_) => Ok(()),
            Body::Return(part) => self.take_part(alloc, part, at),
            Body::Abort(_) => Ok(()),
            Body::Answer {
                of,
                spawn_id,
                result,
            } => self.take_answer(alloc, of, spawn_id, result, at),
        }
    }
}
