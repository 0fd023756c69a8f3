//! Orders as bytes.

ghost use Rattle.std.specs.Prelude.{Ok, IfErr, IfOk};
ghost use Rattle.controller_form.specs.Orders.MasterForm.{master_order_read};
ghost use Rattle.controller_form.specs.Orders.WorkerForm.{worker_order_read};
ghost use Rattle.json_profile.specs.ReadAs.{IsReadAs, IsRefusalOf};

use controller_form::{master_order_of, worker_order_of};
use json_source::{Scratch, tree_of};
use std::alloc::Global;
use ticket_tree::Refusal;

/// The order to a master that bytes are.
pub(crate) fn master_order(alloc: Global, bytes: &[u8]) -> Result<master_core::Order, Refusal>
    ensures ok { IfOk result (λ order. IsReadAs master_order_read bytes.now (Ok order)) }
    ensures refused { IfErr result (IsRefusalOf master_order_read bytes.now) }
{
    let mut scratch = Scratch::new(alloc);
    let tree = tree_of(alloc, bytes, &mut scratch)?;
    master_order_of(alloc, &tree)
}

/// The order to a worker that bytes are.
pub(crate) fn worker_order(alloc: Global, bytes: &[u8]) -> Result<worker_core::Order, Refusal>
    ensures ok { IfOk result (λ order. IsReadAs worker_order_read bytes.now (Ok order)) }
    ensures refused { IfErr result (IsRefusalOf worker_order_read bytes.now) }
{
    let mut scratch = Scratch::new(alloc);
    let tree = tree_of(alloc, bytes, &mut scratch)?;
    worker_order_of(alloc, &tree)
}
