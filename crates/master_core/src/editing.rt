//! What a master does with an edit of its ticket.

ghost use Rattle.std.specs.Prelude.{◌≡◌, None, OnOk, OnErr, IfErr};
ghost use Rattle.ticket_rows.specs.Edit as edits;
ghost use Rattle.master_core.specs.Orders as orders;

use crate::master::Master;
use controller::{Done, Reply};
use spawn::Holder;
use std::alloc::Global;
use ticket_tree::{Edit, Id, Refusal, Ticket};
use world_items::master_order::Order;

/// Why what a holder has can't be changed by the master.
fn held_refusal(holder: Holder) -> Option<Refusal>
    ensures { result ≡ orders.held_refusal holder }
{
    match holder {
        Holder::Master => None,
        Holder::Spawn(spawn) => Some(Refusal::NotHeld(spawn)),
    }
}

/// Does an edit that nothing is against, at a time.
fn apply_held(alloc: Global, ticket: &mut Ticket, edit: Edit, at: u64) -> Result<(), Refusal>
    requires { edits.refusal_of edit ticket.old.rows ≡ None }
    ensures ok { OnOk result (ticket.new ≡ edits.job_after_edit edit at ticket.old) }
    ensures err { OnErr result (ticket.new ≡ ticket.old) }
    ensures memory { IfErr result (λ e. e ≡ Refusal.Memory) }
{
    ticket.apply(alloc, edit, at)
}

impl Master {
    /// Why it can't change what has an id.
    fn not_held(&self, id: &Id) -> Option<Refusal>
        ensures { result ≡ orders.not_held self.now id.now }
    {
        held_refusal(self.holder_of(id)?)
    }

    /// Why an edit is refused: the first reason that holds. Needs no memory.
    fn edit_refusal(&self, edit: &Edit) -> Option<Refusal>
        ensures { result ≡ orders.edit_refusal edit.now self.now }
    {
        match self.ticket().check(edit) {
            Ok(()) => self.not_held(edit.target()),
            Err(refusal) => match refusal {
                Refusal::UnknownNode => Some(Refusal::UnknownNode),
                Refusal::UnknownResource => Some(Refusal::UnknownResource),
                later => self.not_held(edit.target()).or(Some(later)),
            },
        }
    }

    /// Does an edit at a time, where the master holds what it changes.
    pub(crate) fn do_edit(&mut self, alloc: Global, edit: Edit, at: u64) -> Result<Done, Refusal>
        ensures { orders.Does (Order.Edit edit) at self.old result self.new }
    {
        match self.edit_refusal(&edit) {
            Some(refusal) => Err(refusal),
            None => {
                apply_held(alloc, &mut self.ticket, edit, at)?;
                Ok(Done {
                    reply: Reply::Edited,
                    message: None,
                })
            }
        }
    }
}
