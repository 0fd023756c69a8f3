//! What a master does with an order.

ghost use Rattle.std.specs.Prelude.{◌≡◌, ℕ, true, false, Some, Err, OnErr};
ghost use Rattle.std.specs.Prelude.{IfOk, IfErr, IfNone, IfSome};
ghost use Rattle.ticket_items.specs.Ids.{mem};
ghost use Rattle.controller.specs.Step.{done_step};
ghost use Rattle.spawn.specs.Records.{IsGood, is_out};
ghost use Rattle.spawn.specs.Spawning.{spawn_refusal};
ghost use Rattle.master_core.specs.Master as master;
ghost use Rattle.master_core.specs.Orders as orders;

use crate::master::Master;
use crate::records::{next_number, record_of};
use controller::{Body, Done, Message, Reply};
use spawn::{SpawnRec, may_spawn, part_for, spawn_by_table};
use std::alloc::{AllocError, Global};
use ticket_items::is_among;
use ticket_tree::{Duplicate, Id, Ids, Refusal, SpawnId};
use world_items::master_order::Order;

/// The names of a sender and a receiver, copied.
fn names_of(alloc: Global, sender: &Id, receiver: &Id) -> Result<(Id, Id), AllocError>
    ensures { IfOk result (λ names. (names.0 ≡ sender.now) × (names.1 ≡ receiver.now)) }
{
    Ok((sender.copy(alloc)?, receiver.copy(alloc)?))
}

impl Master {
    /// Spawns a node to a worker of its own at a time, and has the message go out that sends its
    /// part.
    fn spawn_to(
        &mut self,
        alloc: Global,
        node: Id,
        worker: Id,
        rw: Ids,
        at: u64,
    ) -> Result<Done, Refusal>
        requires { mem worker self.old.workers ≡ true }
        ensures ok { IfOk result (λ done. done_step done self.new
            ≡ orders.allowed_step (Order.Spawn node worker rw) at self.old) }
        ensures err { OnErr result (self.new ≡ self.old) }
        ensures refused { IfSome (spawn_refusal self.old.ticket.rows self.old.records
            (master.next_number self.old.records) node rw) (λ e. result ≡ Err e) }
        ensures memory { IfNone (spawn_refusal self.old.ticket.rows self.old.records
            (master.next_number self.old.records) node rw)
            (IfErr result (λ e. e ≡ Refusal.Memory)) }
    {
        let number = next_number(self.records());
        let Ok((sender, receiver)) = names_of(alloc, self.name(), &worker) else {
            let refused = may_spawn(self.ticket(), self.records(), number, &node, rw.as_slice());
            return Err(refused.err().unwrap_or(Refusal::Memory));
        };
        let (id, part) = spawn_by_table(
            alloc,
            &mut self.ticket,
            &mut self.records,
            &mut self.holders,
            number,
            node,
            worker,
            rw,
            at,
        )?;
        let message = Message {
            sender,
            receiver,
            at,
            body: Body::Submit(part),
        };
        Ok(Done {
            reply: Reply::Spawned(id),
            message: Some(message),
        })
    }

    /// Does a spawn that is ordered, at a time.
    fn do_spawn(
        &mut self,
        alloc: Global,
        node: Id,
        worker: Id,
        rw: Ids,
        at: u64,
    ) -> Result<Done, Refusal>
        ensures { orders.Does (Order.Spawn node worker rw) at self.old result self.new }
    {
        if !is_among(self.workers(), &worker) {
            return Err(Refusal::UnknownWorker);
        }
        self.spawn_to(alloc, node, worker, rw, at)
    }

    /// The message by which it sends the part of a spawn that is out.
    fn submit_of(&self, alloc: Global, spawn: &SpawnRec) -> Result<Message, Refusal>
        requires out { is_out spawn.now ≡ true }
        requires good { IsGood self.now.ticket.rows spawn.now }
        ensures ok { IfOk result (λ message. message
            ≡ orders.submit_of self.now.name self.now.ticket spawn.now) }
        ensures memory { IfErr result (λ e. e ≡ Refusal.Memory) }
    {
        let (sender, receiver) = names_of(alloc, self.name(), &spawn.worker)?;
        Ok(Message {
            sender,
            receiver,
            at: spawn.at,
            body: Body::Submit(part_for(alloc, self.ticket(), spawn)?),
        })
    }

    /// The message by which it asks the worker of a spawn to give it up.
    fn abort_of(&self, alloc: Global, spawn: &SpawnRec) -> Result<Message, Refusal>
        ensures ok { IfOk result (λ message. message ≡ orders.abort_of self.now.name spawn.now) }
        ensures memory { IfErr result (λ e. e ≡ Refusal.Memory) }
    {
        let (sender, receiver) = names_of(alloc, self.name(), &spawn.worker)?;
        Ok(Message {
            sender,
            receiver,
            at: spawn.at,
            body: Body::Abort(spawn.id),
        })
    }

    /// The record of a spawn that is out.
    fn record_out(&self, spawn: SpawnId) -> Result<&SpawnRec, Refusal>
        ensures found { IfOk result (λ r. (is_out r.now ≡ true)
            × (master.record_of self.now.records spawn ≡ Some r.now)) }
        ensures kept { master.IsConsistent self.now }
        ensures refused { IfErr result (λ e. (e ≡ Refusal.NotOut)
            × (master.is_spawn_out self.now.records spawn ≡ false)) }
    {
        match record_of(self.records(), spawn) {
            None => Err(Refusal::NotOut),
            Some(record) => {
                if record.is_out() {
                    Ok(record)
                } else {
                    Err(Refusal::NotOut)
                }
            }
        }
    }

    /// Sends the part of a spawn once more.
    fn do_resend(&self, alloc: Global, spawn: SpawnId) -> Result<Done, Refusal>
        ensures { (at : ℕ) → orders.Does (Order.Resend spawn) at self.now result self.now }
    {
        let record = self.record_out(spawn)?;
        let message = self.submit_of(alloc, record)?;
        Ok(Done {
            reply: Reply::Sent(spawn),
            message: Some(message),
        })
    }

    /// Asks the worker of a spawn to give it up.
    fn do_withdraw(&self, alloc: Global, spawn: SpawnId) -> Result<Done, Refusal>
        ensures { (at : ℕ) → orders.Does (Order.Withdraw spawn) at self.now result self.now }
    {
        let record = self.record_out(spawn)?;
        let message = self.abort_of(alloc, record)?;
        Ok(Done {
            reply: Reply::Asked(spawn),
            message: Some(message),
        })
    }

    /// Does what it is told to do, at a time.
    pub(crate) fn do_order(&mut self, alloc: Global, order: Order, at: u64) -> Result<Done, Refusal>
        ensures { orders.Does order at self.old result self.new }
    {
        match order {
            Order::Edit(edit) => self.do_edit(alloc, edit, at),
            Order::Spawn { node, worker, rw } => self.do_spawn(alloc, node, worker, rw, at),
            Order::Resend(spawn) => self.do_resend(alloc, spawn),
            Order::Withdraw(spawn) => self.do_withdraw(alloc, spawn),
        }
    }
}
