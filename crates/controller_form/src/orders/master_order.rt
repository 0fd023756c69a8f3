//! The orders of masters.

ghost use Rattle.json_items.specs.Validation.{Answers, Reads};
ghost use Rattle.controller_form.specs.Orders.MasterForm as forms;

use crate::orders::known_spawn::known_spawn;
use json_items::{Validation, check_members, find_three, find_under, text_under};
use json_source::Source;
use master_core::Order;
use std::alloc::Global;
use ticket_tree::Refusal;

/// An order to edit the ticket.
#[tactic(auto, unfolding(crate::specs::Orders::MasterForm::edit_form))]
fn edit<S: Source>(alloc: Global, value: &S) -> Result<Validation<Order>, Refusal>
    ensures { Reads forms.order_has_names forms.order_has_texts result
        (forms.edit_form (S.content value.now)) }
{
    check_members(value, &["Edit", "Order"])?;
    let edit = find_under(alloc, value, "Edit")?;
    Ok(edit.map(|edit| Order::Edit(edit)))
}

/// An order to send a node to a worker.
#[tactic(auto, unfolding(crate::specs::Orders::MasterForm::spawn_form), using(json_items::proofs::Tests::all_true))]
fn spawn<S: Source>(alloc: Global, value: &S) -> Result<Validation<Order>, Refusal>
    ensures { Reads forms.order_has_names forms.order_has_texts result
        (forms.spawn_form (S.content value.now)) }
{
    check_members(value, &["Node", "Order", "RW", "Worker"])?;
    let found = find_three(alloc, value, "Node", "Worker", "RW")?;
    Ok(found.map(|((node, worker), rw)| Order::Spawn { node, worker, rw }))
}

/// The master's order that is found in a value, of the kind that its `Order` names. Refuses
/// `NotProfile`, and `Memory`.
#[tactic(auto, unfolding(crate::specs::Orders::MasterForm::master_order_form))]
pub fn find_master_order<S: Source>(alloc: Global, value: &S) -> Result<Validation<Order>, Refusal>
    ensures { Reads forms.order_has_names forms.order_has_texts result
        (forms.master_order_form (S.content value.now)) }
{
    match text_under(value, "Order").ok_or(Refusal::NotProfile)? {
        "Edit" => edit(alloc, value),
        "Spawn" => spawn(alloc, value),
        "Resend" => Ok(known_spawn(alloc, value)?.map(|spawn| Order::Resend(spawn))),
        "Withdraw" => Ok(known_spawn(alloc, value)?.map(|spawn| Order::Withdraw(spawn))),
        _ => Err(Refusal::NotProfile),
    }
}

/// The master's order that a value is: to edit its ticket, to send a node to a worker with copies
/// of these resources that may be changed, to send the part of a spawn once more, or to ask the
/// worker of a spawn to give it up. Refuses the first of `NotProfile`, `BadId` (also where the
/// SpawnID names no spawn) and `BadText` that stands in it, and `Memory`.
pub fn master_order_of<S: Source>(alloc: Global, value: &S) -> Result<Order, Refusal>
    // Proved: An order is read as its form says, or refused for its first fault.
    // By `worker_order_of`, `find_master_order`, `find_worker_order`.
    ensures { Answers result (forms.master_order_read (S.content value.now)) }
{
    find_master_order(alloc, value)?
}
