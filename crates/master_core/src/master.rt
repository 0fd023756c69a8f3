use crate::names::are_apart;
use crate::stored::holders_of;
use controller::answering::outcome_of;
use controller::{Done, Message, Outcome};
use spawn::{Holder, Holders, SpawnRec, marked};
use std::alloc::{AllocError, Global};
use std::marker::Model;
use ticket_tree::{Id, Ids, Marks, Refusal, Ticket};
use world_items::master_order::Order;

/// A controller that owns a job's ticket (JDF 1.5, 4.4). It spawns nodes of it to its workers, and
/// keeps a record of each spawn.
#[derive(Drop)]
pub struct Master {
    name: Id,
    workers: Ids,
    pub(crate) ticket: Ticket,
    pub(crate) records: Vec<SpawnRec>,
    pub(crate) holders: Holders,
}

impl Model for Master {
    ghost use Rattle.master_core.specs.Master.{IsInStep, State, state};

    ghost Value = { State };

    ghost view = { λ a. state a.name a.workers a.ticket a.records.items };

    ghost invariant = { λ a.
        IsInStep (state a.name a.workers a.ticket a.records.items) a.holders };
}

impl Master {
    ghost use Rattle.std.specs.Prelude.{◌≡◌, ◌⊎◌, ◌∷◌, true, false, [], Err, OnOk, OnErr};
    ghost use Rattle.std.specs.Prelude.{IfOk, IfErr, IsErrOf, IsOk};
    ghost use Rattle.ticket_items.specs.Ids.{are_distinct};
    ghost use Rattle.controller.specs.Reply.{is_answer, is_freed};
    ghost use Rattle.controller.specs.Step.{done_step, outcome_step};
    ghost use Rattle.spawn.specs.Marking as marking;
    ghost use Rattle.master_core.specs.Master as master;
    ghost use Rattle.master_core.specs.Master.{IsConsistent};
    ghost use Rattle.master_core.specs.Messages as messages;
    ghost use Rattle.master_core.specs.Orders as orders;
    ghost use Rattle.master_core.specs.Stored as stored;

    /// A master of this name with these workers, none of whom has a part of its ticket. Refuses
    /// `SameName` where two of the names are equal (our own), and else `Memory`.
    pub fn new(alloc: Global, name: Id, workers: Ids, ticket: Ticket) -> Result<Master, Refusal>
        // Proved: A master begins with no record; distinct names are refused for want of memory
        // alone.
        // By `ok`, `kept`, `refused`, `memory`, `only`; `are_apart`.
        ensures ok { IfOk result (λ m. m ≡ master.state name workers ticket []) }
        ensures kept { IfOk result (λ m. IsConsistent m) }
        ensures refused { IsErrOf result Refusal.SameName → are_distinct (name ∷ workers) ≡ false }
        ensures memory { are_distinct (name ∷ workers) ≡ true
            → IfErr result (λ e. e ≡ Refusal.Memory) }
        ensures only { IfErr result (λ e. (e ≡ Refusal.SameName) ⊎ (e ≡ Refusal.Memory)) }
    {
        if !are_apart(alloc, &name, workers.as_slice())? {
            return Err(Refusal::SameName);
        }
        Ok(Master {
            name,
            workers,
            ticket,
            records: Vec::new(alloc),
            holders: Holders::new(alloc),
        })
    }

    /// The master of these parts, as they are once it was stored and is read again. Refuses
    /// `BadState` (our own) just where two of the names are equal; where the first record isn't
    /// numbered 1, the next 2 and so on; where a spawn went to none of the workers; where a
    /// record's node isn't in the ticket or is its root, or a copy of it isn't that of a resource
    /// of the ticket, also once it is merged; or where the record of a spawn that is out isn't good
    /// in the ticket, or two of those claim one node or resource (JDF 1.5, 4.4). Else it refuses
    /// `Memory`.
    pub fn of_parts(
        alloc: Global,
        name: Id,
        workers: Ids,
        ticket: Ticket,
        records: Vec<SpawnRec>,
    ) -> Result<Master, Refusal>
        // Proved: Stored parts are taken just if some master could have them.
        // By `ok`, `kept`, `taken`, `refused`, `memory`, `only`; `laws::a_kept_master_is_stored`.
        ensures ok { IfOk result (λ m. m ≡ master.state name workers ticket records.items) }
        ensures kept { IfOk result (λ m. IsConsistent m) }
        ensures taken { OnOk result
            (stored.is_master (master.state name workers ticket records.items) ≡ true) }
        ensures refused { IsErrOf result Refusal.BadState
            → stored.is_master (master.state name workers ticket records.items) ≡ false }
        ensures memory { stored.is_master (master.state name workers ticket records.items) ≡ true
            → IfErr result (λ e. e ≡ Refusal.Memory) }
        ensures only { IfErr result (λ e. (e ≡ Refusal.BadState) ⊎ (e ≡ Refusal.Memory)) }
    {
        let Some(holders) = holders_of(
            alloc,
            &name,
            workers.as_slice(),
            &ticket,
            records.as_slice(),
        )?
        else {
            return Err(Refusal::BadState);
        };
        Ok(Master {
            name,
            workers,
            ticket,
            records,
            holders,
        })
    }

    /// Its name.
    pub fn name(&self) -> &Id
        ensures { result.now ≡ self.now.name }
    {
        &self.name
    }

    /// The names of its workers.
    pub fn workers(&self) -> &[Id]
        ensures { result.now ≡ self.now.workers }
    {
        self.workers.as_slice()
    }

    /// Its ticket as it has it: what is out stands in it as it was.
    pub fn ticket(&self) -> &Ticket
        ensures { result.now ≡ self.now.ticket }
    {
        &self.ticket
    }

    /// The records of its spawns, in the order in which they went out, the first of which has the
    /// number 1, the next 2 and so on. Each went to a worker, and its node stands in the ticket
    /// below another, as the resources of its copies do; no two controllers have one name; the
    /// ticket is valid; each record of a spawn that is out is good in it, and no two of those claim
    /// one node or resource.
    pub fn records(&self) -> &[SpawnRec]
        // Proved: A master's names are distinct, its ticket valid, its records numbered, those out
        // good and apart.
        // By `records`, `kept`; `master::Master::name`, `Master::workers`, `Master::ticket`.
        ensures records { result.now ≡ self.now.records }
        ensures kept { IsConsistent self.now }
    {
        self.records.as_slice()
    }

    /// Who holds a node or a resource: the spawn that is out and claims it, or else the master.
    /// `None` where the id is unknown. Needs no memory.
    pub fn holder_of(&self, id: &Id) -> Option<Holder>
        // Proved: A master may change what it holds.
        // By `Master::may_change`; `laws::what_a_master_may_change_it_holds`: `held`, `edits`.
        ensures { result ≡ master.holder self.now id.now }
    {
        self.holders.holder_of(&self.ticket, id)
    }

    /// Whether it may change a node or a resource: it holds it. Needs no memory.
    pub fn may_change(&self, id: &Id) -> bool
        ensures { result ≡ master.may_change self.now id.now }
    {
        match self.holder_of(id) {
            Some(Holder::Master) => true,
            Some(Holder::Spawn(_)) => false,
            None => false,
        }
    }

    /// What its ticket shows of the spawns that are out (JDF 1.5, 4.4). Refuses `Memory` alone.
    pub fn shown(&self, alloc: Global) -> Result<Marks, Refusal>
        // Proved: A master shows the marks of its spawns that are out.
        // By `ok`, `memory`.
        ensures ok { IfOk result
            (λ marks. marks ≡ marking.marks self.now.ticket.rows self.now.records) }
        ensures memory { IfErr result (λ e. e ≡ Refusal.Memory) }
    {
        marked(alloc, &self.ticket, self.records.as_slice())
    }

    /// Does what it is told, at a time in seconds since 1970: it edits its ticket, spawns a node to
    /// a worker, sends the part of a spawn once more, or asks the worker of a spawn to give it up,
    /// which changes nothing until the worker declines it. Refuses the first that holds, without
    /// memory: an edit as `UnknownNode` or `UnknownResource` where what it names isn't there, as
    /// `NotHeld` where a spawn that is out holds its target, and then as `Ticket::apply` does; a
    /// spawn as `UnknownWorker` where no worker has the name, and then as `spawn::may_spawn` says;
    /// to send once more, or to ask, as `NotOut` where no spawn that is out has the number. Then
    /// refuses `Memory`. A refusal changes nothing.
    pub fn order(&mut self, alloc: Global, order: Order, at: u64) -> Result<Done, Refusal>
        // Proved: An order does just what it says, and what goes out is told.
        // By `ok`, `err`.
        ensures ok { IfOk result
            (λ done. done_step done self.new ≡ orders.order_step order at self.old) }
        ensures err { OnErr result (self.new ≡ self.old) }
        // Proved: An order is refused for the first reason, without memory.
        // By `refused`, `memory`.
        ensures refused { IfErr (orders.order_step order at self.old).reply
            (λ e. result ≡ Err e) }
        ensures memory { IfOk (orders.order_step order at self.old).reply
            (λ _. IfErr result (λ e. e ≡ Refusal.Memory)) }
    {
        self.do_order(alloc, order, at)
    }

    /// Takes a message, whoever sent it and whatever it says, at a time in seconds since 1970. The
    /// reply is what it was taken as, or the first refusal that holds: `WrongMessage` where it is
    /// for another, or is neither a part that comes back nor the answer to what a master sends;
    /// `UnknownSpawn` where there is no record of the spawn; `WrongSender` where it isn't from the
    /// worker to whom that went; for a part that comes back `NotOut` where the spawn was withdrawn,
    /// and `WrongShape` where it is out and the part doesn't fit. A refusal changes nothing, nor
    /// does a part that was put in before, nor an answer, unless its worker declines a spawn that
    /// is out: that is then withdrawn. A command is answered, refused or not; an answer isn't, and
    /// takes no memory unless it frees a spawn. Where memory runs out nothing is changed.
    pub fn take(&mut self, alloc: Global, message: Message, at: u64) -> Result<Outcome, AllocError>
        // Proved: Any message is taken or refused for the first reason; only a part that fits a
        // spawn that is out is merged, and only a spawn that is out is freed.
        // By `ok`, `err`.
        ensures ok { IfOk result
            (λ outcome. outcome_step outcome self.new ≡ messages.take_step message at self.old) }
        ensures err { OnErr result (self.new ≡ self.old) }
        // Proved: An answer that frees no spawn needs no memory.
        ensures answers { is_answer message.body ≡ true
            → IfOk (messages.take_step message at self.old).reply (λ r. is_freed r ≡ false)
            → IsOk result }
    {
        let judged = self.judge(&message.body);
        if let Some(refusal) = self.refusal_of(&message, judged.refusal) {
            return outcome_of(alloc, self.name(), &message, at, Err(refusal));
        }
        let outcome = outcome_of(alloc, self.name(), &message, at, Ok(judged.taken))?;
        self.take_body(alloc, message.body, at)?;
        Ok(outcome)
    }
}
