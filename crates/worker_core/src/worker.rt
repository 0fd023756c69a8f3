use crate::entries::Entries;
use crate::entry::Entry;
use crate::ordering::do_order;
use crate::stored::are_parts;
use crate::taking::{do_take, judge};
use controller::{Body, Done, Message, Outcome, Taken};
use std::alloc::{AllocError, Global};
use std::marker::Model;
use ticket_tree::{Id, Refusal, SpawnId};
use world_items::worker_order::Order;

/// A controller that works on parts of another's ticket, which is its master (JDF 1.5, 4.4). It
/// keeps each part that it takes, in the order in which they come, until it was given back and has
/// come; and for good that it took it, or declined it.
#[derive(Drop)]
pub struct Worker {
    name: Id,
    master: Id,
    entries: Entries,
}

impl Model for Worker {
    ghost use Rattle.worker_core.specs.Worker.{IsConsistent, State, state};

    ghost Value = { State };

    ghost view = { λ a. record { name = a.name; master = a.master; entries = a.entries } };

    ghost invariant = { λ a. IsConsistent (state a.name a.master a.entries) };
}

impl Worker {
    ghost use Rattle.std.specs.Prelude.{◌≡◌, ◌↔◌, ◌⊎◌, ℕ, true, false, [], Err, OnOk, OnErr};
    ghost use Rattle.std.specs.Prelude.{IfOk, IfErr, IsErrOf, IsOk};
    ghost use Rattle.controller.specs.Reply.{is_answer};
    ghost use Rattle.controller.specs.Step.{done_step, outcome_step};
    ghost use Rattle.worker_core.specs.Messages as messages;
    ghost use Rattle.worker_core.specs.Orders as orders;
    ghost use Rattle.worker_core.specs.Stored as stored;
    ghost use Rattle.worker_core.specs.Worker as worker;
    ghost use Rattle.worker_core.specs.Worker.{IsConsistent};

    /// A worker of this name, with no entry, whose parts are its master's. Refuses `SameName` where
    /// the two names are equal (our own). Needs no memory.
    pub fn new(alloc: Global, name: Id, master: Id) -> Result<Worker, Refusal>
        // Proved: A worker begins with no entry; equal names, and nothing else, are refused.
        // By `ok`, `refused`, `only`.
        ensures ok { IfOk result (λ w. w ≡ worker.state name master []) }
        ensures refused { IsErrOf result Refusal.SameName ↔ (name ≡ master) }
        ensures only { IfErr result (λ e. e ≡ Refusal.SameName) }
    {
        if name == master {
            return Err(Refusal::SameName);
        }
        Ok(Worker {
            name,
            master,
            entries: Entries::new(alloc),
        })
    }

    /// The worker of these parts, as they are once it was stored and is read again. Refuses
    /// `BadState` (our own) just where the name is the master's, two entries are of one spawn, one
    /// that is closed or declined has a part or another has none, or a part is of another spawn
    /// than its entry, isn't sound, or is finished and its node hasn't the Status of its end; and
    /// else `Memory`.
    pub fn of_parts(
        alloc: Global,
        name: Id,
        master: Id,
        entries: Vec<Entry>,
    ) -> Result<Worker, Refusal>
        // Proved: Stored parts are taken just if some worker could have them.
        // By `ok`, `kept`, `taken`, `refused`, `memory`, `only`; `laws::a_kept_worker_is_stored`.
        ensures ok { IfOk result (λ w. w ≡ worker.state name master entries.items) }
        ensures kept { IfOk result (λ w. IsConsistent w) }
        ensures taken { OnOk result
            (stored.is_worker (worker.state name master entries.items) ≡ true) }
        ensures refused { IsErrOf result Refusal.BadState
            → stored.is_worker (worker.state name master entries.items) ≡ false }
        ensures memory { stored.is_worker (worker.state name master entries.items) ≡ true
            → IfErr result (λ e. e ≡ Refusal.Memory) }
        ensures only { IfErr result (λ e. (e ≡ Refusal.BadState) ⊎ (e ≡ Refusal.Memory)) }
    {
        if !are_parts(&name, &master, entries.as_slice()) {
            return Err(Refusal::BadState);
        }
        match Entries::of(alloc, entries)? {
            None => Err(Refusal::BadState),
            Some(entries) => Ok(Worker {
                name,
                master,
                entries,
            }),
        }
    }

    /// Its name.
    pub fn name(&self) -> &Id
        ensures { result.now ≡ self.now.name }
    {
        &self.name
    }

    /// Its master's name.
    pub fn master(&self) -> &Id
        ensures { result.now ≡ self.now.master }
    {
        &self.master
    }

    /// Its entries, in the order in which they were taken or declined. No two are of one spawn; one
    /// that is closed or declined has no part; and the part of each other is of the entry's spawn,
    /// is a valid ticket with its copies, and sound; and the node of one that is finished has the
    /// Status of its end.
    pub fn entries(&self) -> &[Entry]
        // Proved: A worker has one entry a spawn, with a sound part until it is closed unless it
        // was declined, a finished one with the Status of its end.
        // By `entries`, `kept`; `worker::Worker::name`, `Worker::master`.
        ensures entries { result.now ≡ self.now.entries }
        ensures kept { IsConsistent self.now }
    {
        self.entries.as_slice()
    }

    /// Whether it may change a node or a resource through the entry of a spawn: the entry is open,
    /// and the id is that of a node of its part, of a resource of the part's pools, or of a copy
    /// that may be changed. Needs no memory.
    pub fn may_change(&self, spawn: SpawnId, id: &Id) -> bool
        // Proved: A worker may change what stands in an open entry, but for copies to read.
        // By `laws::what_a_worker_may_change_is_in_an_open_entry`: `held`, `edits`.
        ensures { result ≡ worker.may_change self.now.entries spawn id.now }
    {
        self.entries.may_change(spawn, id)
    }

    /// Does what it is told, at a time in seconds since 1970: it edits the part of an entry, ends
    /// the work on it and gives it back, or gives it back once more. Refuses the first that holds,
    /// without memory: `UnknownEntry` where it has no entry of the spawn, or declined it; an edit
    /// as `NotOpen` once the entry is finished, `NotForWorkers` where it adds to the tree,
    /// `NotInPart` where its target isn't in the part as a node or a resource, `ReadOnly` where
    /// that is a copy to be read alone, and `ReservedStatus`; the end as `NotOpen`; to give back
    /// once more as `NotDone` while the entry is open, and `Acknowledged` once it is closed. Then
    /// refuses `Memory`. A refusal changes nothing.
    pub fn order(&mut self, alloc: Global, order: Order, at: u64) -> Result<Done, Refusal>
        // Proved: An order does just what it says to one entry, and what goes back is told.
        // By `ok`, `err`.
        ensures ok { IfOk result
            (λ done. done_step done self.new ≡ orders.order_step order at self.old) }
        ensures err { OnErr result (self.new ≡ self.old) }
        // Proved: An order is refused for the first reason, without memory.
        // By `refused`, `memory`.
        ensures refused { IfErr (orders.order_step order at self.old).reply
            (λ e. result ≡ Err e) }
        ensures memory { IfOk (orders.order_step order at self.old).reply
            (λ _. IfErr result (λ e. e ≡ Refusal.Memory)) }
    {
        do_order(
            alloc,
            &self.name,
            &self.master,
            &mut self.entries,
            order,
            at,
        )
    }

    /// What it takes a message as, and what a command is told, unless it refuses it. Needs no
    /// memory.
    pub fn taken_as(&self, body: &Body) -> Taken
        // Proved: What a message is taken as, and what its command is told, is told before.
        // By `reply`, `response`.
        ensures reply { (at : ℕ) → result.reply ≡ (messages.on_body body.now at self.now).reply }
        ensures response { (at : ℕ) → result.response
            ≡ (messages.on_body body.now at self.now).response }
    {
        judge(&self.entries, body).taken
    }

    /// Takes a message, whoever sent it and whatever it says, at a time in seconds since 1970. The
    /// reply is what it was taken as, or the first refusal that holds: `WrongMessage` where it is
    /// for another, or is neither a part that goes out, nor that a spawn is to be given up, nor the
    /// answer to a part that came back; `WrongSender` where it isn't from the master; for a part of
    /// which there is no entry yet `BadPart` where it isn't sound; for an answer `UnknownEntry`,
    /// also where the spawn was declined, and `NotDone` while the entry is open. A refusal changes
    /// nothing, nor does an answer that tells of one; an answer that tells that a part has come
    /// closes its entry, which gives up the part. A spawn that is to be given up is declined for
    /// good where there is no entry of it, and the work on an open one ends, whose part then goes
    /// back as it is sent once more. A command is answered, refused or not, and one of a spawn that
    /// was declined with `Declined`; an answer isn't, and takes no memory. Where memory runs out
    /// nothing is changed.
    pub fn take(&mut self, alloc: Global, message: Message, at: u64) -> Result<Outcome, AllocError>
        // Proved: Any message is taken or refused for the first reason, and a command answered
        // either way.
        // By `ok`, `err`.
        ensures ok { IfOk result
            (λ outcome. outcome_step outcome self.new ≡ messages.take_step message at self.old) }
        ensures err { OnErr result (self.new ≡ self.old) }
        // Proved: An answer needs no memory.
        ensures answers { is_answer message.body ≡ true → IsOk result }
    {
        do_take(
            alloc,
            &self.name,
            &self.master,
            &mut self.entries,
            message,
            at,
        )
    }
}
