use crate::apart::are_names_apart;
use crate::carrier::Direct;
use crate::memory::in_memory;
use crate::seats::Seats;
use crate::workers::new_workers;
use master_core::Master;
use std::alloc::{AllocError, Global};
use std::marker::Model;
use stored_state::MemorySeat;
use ticket_tree::{Id, Ids, Refusal, Ticket};
use worker_core::Worker;
use world_items::{Answer, Event};

/// A master, its workers, and every message that they sent. What is kept of a message is its text,
/// which is read where it is delivered; and of a controller the text of its state, from which it is
/// started again. Between events each controller is as it is stored.
#[derive(Drop)]
pub struct World {
    seats: Seats<MemorySeat<Master>, MemorySeat<Worker>>,
}

impl Model for World {
    ghost use Rattle.world.specs.State.{State};

    ghost Value = { State };

    ghost view = { λ a. a.seats };
}

impl World {
    ghost use Rattle.std.specs.Prelude.{◌≡◌, ◌↔◌, ◌⊎◌, ◌∷◌, true, false, OnOk, OnErr, IfOk, IfErr};
    ghost use Rattle.std.specs.Prelude.{◌<◌, ℕ, Err, List, length, map, take, IfSome, IsErrOf};
    ghost use Rattle.std.specs.Prelude.{IsOk, is_some};
    ghost use Rattle.std.specs.List.{position};
    ghost use Rattle.std.specs.Option.{option_copied};
    ghost use Rattle.ticket_items.specs.Ids.{are_distinct};
    ghost use Rattle.ticket_rows.specs.Ticket.{Job};
    ghost use Rattle.spawn.specs.Marking.{marks};
    ghost use Rattle.stored_state.specs.Message.{message_text, messages_in};
    ghost use Rattle.world.specs.Changing.{Changer, Holds, MayChange};
    ghost use Rattle.world.specs.Happening as happening;
    ghost use Rattle.plain_shop.specs.MergeAudits.{MergeAuditsMatch};
    ghost use Rattle.world.specs.Once.{AreMergedOnce};
    ghost use Rattle.plain_shop.specs.Replay as replay;
    ghost use Rattle.plain_shop.specs.SeenTicket.{ticket_seen};
    ghost use Rattle.plain_shop.specs.Settling as settling;
    ghost use Rattle.plain_shop.specs.Marks.{shop_marks};
    ghost use Rattle.world.specs.Showing.{shows};
    ghost use Rattle.world.specs.State as state;
    ghost use Rattle.world.specs.StoredTexts as texts;
    ghost use Rattle.world.specs.Telling.{AreTold};

    /// A master of this name with this ticket, of which nothing is out, and workers of these names.
    /// Nothing was sent. It shows one ticket with one table of holders, in which the master holds
    /// all. Refuses `SameName` where two of the names are equal (our own), whatever memory there
    /// is, and else `Memory`.
    pub fn new(alloc: Global, name: Id, workers: Ids, ticket: Ticket) -> Result<World, Refusal>
        // Proved: Before anything happened the master holds all, and what is shown is the ticket.
        // By `ok`, `shown`.
        ensures ok { IfOk result (λ w. w ≡ state.opening name workers ticket) }
        ensures shown { IfOk result (λ w. shows w ≡ replay.opening name workers ticket) }
        // Proved: Equal names are refused as `SameName`, whatever memory there is, and distinct
        // ones never.
        // By `refused`, `memory`, `only`.
        ensures refused { IsErrOf result Refusal.SameName
            ↔ (are_distinct (name ∷ workers) ≡ false) }
        ensures memory { are_distinct (name ∷ workers) ≡ true
            → IfErr result (λ e. e ≡ Refusal.Memory) }
        ensures only { IfErr result (λ e. (e ≡ Refusal.SameName) ⊎ (e ≡ Refusal.Memory)) }
    {
        if !are_names_apart(alloc, &name, workers.as_slice()) {
            return Err(Refusal::SameName);
        }
        let core = Master::new(alloc, name, workers, ticket)?;
        let master = MemorySeat::new(alloc, core)?;
        let begun = master.controller();
        match new_workers(alloc, begun.name(), begun.workers()) {
            Ok(workers) => Ok(World {
                seats: Seats::new(alloc, master, workers),
            }),
            Err(refusal) => {
                drop(master);
                Err(refusal)
            }
        }
    }

    /// The master. Its ticket, and what that shows of the spawns that are out, are those of the one
    /// ticket with one table of holders that the world shows.
    pub fn master(&self) -> &Master
        // Proved: The master's ticket and marks are those of the one ticket.
        // By `master`, `seen`, `marks`; `laws::ticket_is_seen`, `laws::marks_are_shown`.
        ensures master { result.now ≡ self.now.controllers.master }
        ensures seen { result.now.ticket ≡ ticket_seen (shows self.now).shop }
        ensures marks { marks result.now.ticket.rows result.now.records
            ≡ shop_marks (shows self.now).shop }
    {
        self.seats.master_seat().controller()
    }

    /// The worker of a name.
    pub fn worker(&self, name: &Id) -> Option<&Worker>
        // Proved: A worker is found by its name.
        ensures { option_copied result ≡ state.worker_of self.now.controllers.workers name.now }
    {
        let seat = self.seats.worker_seat(name)?;
        Some(seat.controller())
    }

    /// The text of the state of the controller of a name, from which it is started again.
    pub fn stored(&self, name: &Id) -> Option<&[u8]>
        // Proved: The text of each controller's state is the one that a keeper would hold, and is
        // read again as the controller.
        // By `text`, `again`.
        ensures text { option_copied result ≡ texts.text_of self.now.controllers name.now }
        ensures again { IfSome result (λ text.
            texts.IsReadAgain self.now.controllers name.now text.now) }
    {
        let master = self.seats.master_seat();
        if name == master.controller().name() {
            return Some(master.text());
        }
        let seat = self.seats.worker_seat(name)?;
        Some(seat.text())
    }

    /// The text of every message that was sent, in the order in which they went out, each of which
    /// is read as the message that it is of. The first has the number 1. The workers are those that
    /// the master names, each knows it as its master, and each controller is in order. So are the
    /// messages: of one spawn one part goes out, one comes back and one command gives it up,
    /// however often, and each is the one that the master makes of its record, a part while that is
    /// out, or the worker of its entry while that is finished and not closed. Where a part was put
    /// in, the work on its entry has ended, where a spawn was withdrawn, its entry is declined, and
    /// where an entry is closed, its part was put in. While a spawn is out, the part that goes out
    /// with it has what it holds as it is seen, and the one that comes back as it is now.
    pub fn messages(&self) -> &[Vec<u8>]
        // Proved: The text of each message is the one that a controller beside its keeper would
        // give out, and is read again as the message.
        // By `messages`, `texts`.
        ensures messages { messages_in (map (λ t. t.items) result.now) ≡ self.now.messages }
        ensures texts { map (λ t. t.items) result.now ≡ map message_text self.now.messages }
        // Proved: Of one spawn one part goes out, one comes back and one command gives it up,
        // however often, between the master and its worker.
        // Proved: A spawn is had back without its part only where its worker has declined it, and
        // its part is put in only where the work on it has ended.
        ensures kept { state.IsConsistent self.now }
        // Proved: While a spawn is out, its part goes out with what it holds as it is seen, and
        // comes back with it as it is now.
        ensures tells { AreTold self.now }
    {
        self.seats.messages()
    }

    /// One event. What is told to a controller, or comes to it, is a step: its state is stored and
    /// its message is sent, as far as the stop lets it. A controller that stops is started again
    /// from the text of its state. Where there is no such controller it is
    /// `Refused` as `UnknownWorker`, and where there is no such message it is `NoMessage`, at any
    /// stop. The answer, and what is shown then, are those of one ticket with one table of holders,
    /// to which the event happens. Where memory runs out nothing is changed; an event that comes to
    /// no controller needs none. Whatever comes of it, the master may change
    /// then just what it holds in the shop that is shown, and a worker just what an open spawn to
    /// it holds; so no two may change one node or resource.
    pub fn step(&mut self, alloc: Global, event: Event) -> Result<Answer, AllocError>
        ensures said { IfOk result (λ a. a ≡ replay.answer_to event (shows self.old)) }
        ensures shown { OnOk result (shows self.new ≡ replay.after event (shows self.old)) }
        // Proved: An event is one controller's step, stored and sent as far as its stop lets it,
        // or none.
        // By `answer`, `state`.
        ensures answer { IfOk result (λ a. a ≡ happening.answer_to event self.old) }
        ensures state { OnOk result (self.new ≡ happening.after event self.old) }
        ensures err { OnErr result (self.new ≡ self.old) }
        // Proved: What comes to no controller needs no memory.
        ensures needs_no_memory { happening.reaches event self.old ≡ false → IsOk result }
        ensures alone { (c d : Changer) (x : List ℕ)
            → MayChange self.new c x → MayChange self.new d x → c ≡ d }
        ensures held { (c : Changer) (x : List ℕ)
            → MayChange self.new c x ↔ Holds (shows self.new).shop c x }
    {
        match self.seats.step(&mut Direct, alloc, event) {
            Ok(answer) => Ok(answer),
            Err(_) => Err(AllocError),
        }
    }

    /// Events in turn, and what comes of each. The answers, and what is shown then, are those of
    /// one ticket with one table of holders, to which the events happen in turn: the master's
    /// edits, its spawns and withdrawals, the workers' work, and the merges. Where memory runs
    /// out the world stands, and shows, as after the events before the one at which it did.
    /// Whatever comes of them, each may change then just what it holds, as after `step`; and the
    /// part of each spawn is put in at most once, of which the audits of the node above tell, where
    /// the world was in its beginning, just as the answers do.
    pub fn run(&mut self, alloc: Global, events: Vec<Event>) -> Result<Vec<Answer>, AllocError>
        // Proved: **Whatever happens, the answers and what is shown are those of one ticket with
        // one table of holders: the original with the master's edits, its spawns and withdrawals,
        // and exactly the merged returns put in, in merge order.**
        // By `said`, `shown`; `World::step`: `said`, `shown`; `laws::events_are_replayed`.
        ensures said { IfOk result
            (λ answers. answers.items ≡ replay.answers_to events.items (shows self.old)) }
        ensures shown { OnOk result
            (shows self.new ≡ replay.after_all events.items (shows self.old)) }
        // Proved: Where memory runs out, what is shown is what fewer of the events leave.
        ensures cut { OnErr result ((k : ℕ) × (k < length events.items)
            × (shows self.new ≡ replay.after_all (take k events.items) (shows self.old))) }
        // Proved: Events come one after the other, and each is answered; where memory runs out,
        // those before it have come.
        // By `answers`, `state`, `err`.
        ensures answers { IfOk result
            (λ answers. answers.items ≡ happening.answers_to events.items self.old) }
        ensures state { OnOk result (self.new ≡ happening.after_all events.items self.old) }
        ensures err { OnErr result ((k : ℕ) × (k < length events.items)
            × (self.new ≡ happening.after_all (take k events.items) self.old)) }
        // Proved: Of each spawn at most one answer tells that it was merged, and none once nothing
        // of it is out.
        // By `once`; `laws::each_spawn_is_merged_once`.
        ensures once { IfOk result (λ answers. AreMergedOnce answers.items) }
        // Proved: In a run from the beginning on, the audits above a spawned node tell, past those
        // of the beginning, of its merge once if an answer does, else never.
        // By `merges`; `laws::merges_are_told`.
        ensures merges { IfOk result (λ answers. (name : List ℕ) (workers : List (List ℕ))
            (ticket : Job) → self.old ≡ state.opening name workers ticket
            → MergeAuditsMatch ticket answers.items (shows self.new).shop) }
        // Proved: After any events no two may change one node or resource.
        // By `alone`; `World::step`: `alone`; `laws::no_two_may_change_one`.
        ensures alone { (c d : Changer) (x : List ℕ)
            → MayChange self.new c x → MayChange self.new d x → c ≡ d }
        // Proved: The master may change just what it holds in what is shown, a worker just what an
        // open spawn to it holds.
        // By `held`; `World::step`: `held`; `laws::holders_may_change`.
        ensures held { (c : Changer) (x : List ℕ)
            → MayChange self.new c x ↔ Holds (shows self.new).shop c x }
    {
        in_memory(self.seats.run(&mut Direct, alloc, events))
    }
}
