//! The orders of workers.

ghost use Rattle.json_items.specs.Validation.{Answers, Reads};
ghost use Rattle.controller_form.specs.Orders.WorkerForm as forms;

use crate::orders::end_named::end_named;
use crate::orders::known_spawn::known_spawn;
use json_items::{Validation, check_members, find_two, find_under, text_under};
use json_source::Source;
use std::alloc::Global;
use ticket_tree::Refusal;
use worker_core::Order;

/// An order to edit the part of a spawn.
#[tactic(auto, unfolding(crate::specs::Orders::WorkerForm::edit_form))]
fn edit<S: Source>(alloc: Global, value: &S) -> Result<Validation<Order>, Refusal>
    ensures { Reads forms.order_has_names forms.order_has_texts result
        (forms.edit_form (S.content value.now)) }
{
    check_members(value, &["Edit", "Order", "SpawnID"])?;
    let found = find_two(alloc, value, "SpawnID", "Edit")?;
    Ok(found.map(|(spawn, edit)| Order::Edit(spawn, edit)))
}

/// An order to end the work on it.
#[tactic(auto, unfolding(crate::specs::Orders::WorkerForm::finish_form))]
fn finish<S: Source>(alloc: Global, value: &S) -> Result<Validation<Order>, Refusal>
    ensures { Reads forms.order_has_names forms.order_has_texts result
        (forms.finish_form (S.content value.now)) }
{
    check_members(value, &["Order", "SpawnID", "Status"])?;
    let word = text_under(value, "Status").ok_or(Refusal::NotProfile)?;
    let end = end_named(word).ok_or(Refusal::NotProfile)?;
    let spawn = find_under(alloc, value, "SpawnID")?;
    Ok(spawn.map(|spawn| Order::Finish(spawn, end)))
}

/// The worker's order that is found in a value, of the kind that its `Order` names. Refuses
/// `NotProfile`, and `Memory`.
#[tactic(auto, unfolding(crate::specs::Orders::WorkerForm::worker_order_form))]
pub fn find_worker_order<S: Source>(alloc: Global, value: &S) -> Result<Validation<Order>, Refusal>
    ensures { Reads forms.order_has_names forms.order_has_texts result
        (forms.worker_order_form (S.content value.now)) }
{
    match text_under(value, "Order").ok_or(Refusal::NotProfile)? {
        "Edit" => edit(alloc, value),
        "Finish" => finish(alloc, value),
        "Resend" => Ok(known_spawn(alloc, value)?.map(|spawn| Order::Resend(spawn))),
        _ => Err(Refusal::NotProfile),
    }
}

/// The worker's order that a value is: to edit the part of a spawn, to end the work on it, or to
/// give it back once more. Refuses the first of `NotProfile`, `BadId` (also where the SpawnID names
/// no spawn) and `BadText` that stands in it, and `Memory`.
pub fn worker_order_of<S: Source>(alloc: Global, value: &S) -> Result<Order, Refusal>
    ensures { Answers result (forms.worker_order_read (S.content value.now)) }
{
    find_worker_order(alloc, value)?
}
