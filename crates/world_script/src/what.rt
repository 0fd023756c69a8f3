//! What happens at an event.

ghost use Rattle.std.specs.Option.{option_map};
ghost use Rattle.json_items.specs.Validation.{Reads};
ghost use Rattle.controller_form.specs.Orders.WorkerForm as worker_form;
ghost use Rattle.world_items.specs.declared.what.What.TheVariants as whats;
ghost use Rattle.world_script.specs.EventForm as forms;

use controller_form::{find_master_order, find_worker_order};
use json_items::{Validation, check_members, find_under, id_in, text_under, zip};
use json_source::Source;
use std::alloc::Global;
use ticket_tree::Refusal;
use world_items::What;

/// An order to the worker of a name.
fn worker_order<S: Source>(
    alloc: Global,
    name: &str,
    value: &S,
) -> Result<Validation<What>, Refusal>
    ensures { Reads forms.what_has_names forms.what_has_texts result
        (option_map (whats.WorkerOrder name.now)
        (worker_form.worker_order_form (S.content value.now))) }
{
    let name = id_in(alloc, name)?;
    let order = find_worker_order(alloc, value)?;
    let found = zip(name, order);
    Ok(found.map(|(name, order)| What::WorkerOrder(name, order)))
}

/// An order to the controller of a name: to the master in its form, to any other in that of
/// workers.
fn order_to<S: Source>(
    alloc: Global,
    master: &str,
    name: &str,
    value: &S,
) -> Result<Validation<What>, Refusal>
    ensures { Reads forms.what_has_names forms.what_has_texts result
        (forms.order_to master.now name.now (S.content value.now)) }
{
    if name == master {
        let order = find_master_order(alloc, value)?;
        Ok(order.map(|order| What::MasterOrder(order)))
    } else {
        worker_order(alloc, name, value)
    }
}

/// A controller is told to do something.
#[tactic(auto, unfolding(crate::specs::EventForm::order_form))]
fn order<S: Source>(alloc: Global, master: &str, value: &S) -> Result<Validation<What>, Refusal>
    ensures { Reads forms.what_has_names forms.what_has_texts result
        (forms.order_form master.now (S.content value.now)) }
{
    check_members(value, &["At", "Event", "Order", "Stop", "To"])?;
    let name = text_under(value, "To").ok_or(Refusal::NotProfile)?;
    let order = value.member("Order").ok_or(Refusal::NotProfile)?;
    order_to(alloc, master, name, order)
}

/// A message is handed to its receiver.
#[tactic(auto, unfolding(crate::specs::EventForm::deliver_form))]
fn deliver<S: Source>(alloc: Global, value: &S) -> Result<Validation<What>, Refusal>
    ensures { Reads forms.what_has_names forms.what_has_texts result
        (forms.deliver_form (S.content value.now)) }
{
    check_members(value, &["At", "Deliver", "Event", "Stop"])?;
    let number = find_under(alloc, value, "Deliver")?;
    Ok(number.map(|number| What::Deliver(number)))
}

/// A controller stops, and is started again.
#[tactic(auto, unfolding(crate::specs::EventForm::restart_form))]
fn restart<S: Source>(alloc: Global, value: &S) -> Result<Validation<What>, Refusal>
    ensures { Reads forms.what_has_names forms.what_has_texts result
        (forms.restart_form (S.content value.now)) }
{
    check_members(value, &["At", "Event", "Stop", "To"])?;
    let name = find_under(alloc, value, "To")?;
    Ok(name.map(|name| What::Restart(name)))
}

/// What is found of what happens at the event that a value is, in a shop whose master has this
/// name. Refuses `NotProfile`, and `Memory`.
#[tactic(auto, unfolding(crate::specs::EventForm::what_form))]
pub fn find_what<S: Source>(
    alloc: Global,
    master: &str,
    value: &S,
) -> Result<Validation<What>, Refusal>
    ensures { Reads forms.what_has_names forms.what_has_texts result
        (forms.what_form master.now (S.content value.now)) }
{
    match text_under(value, "Event").ok_or(Refusal::NotProfile)? {
        "Order" => order(alloc, master, value),
        "Deliver" => deliver(alloc, value),
        "Restart" => restart(alloc, value),
        _ => Err(Refusal::NotProfile),
    }
}
