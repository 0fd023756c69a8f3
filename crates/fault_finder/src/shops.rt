//! What no schema can say of a shop and of a script: names that stand once, and orders that are for
//! the controller that they go to.

use crate::located::LocatedValue;
use crate::profile::Definition;
use crate::quoted::QuotedText;
use crate::rule::Rule;
use crate::walk::Walk;
use crate::weight::weigh;
use std::alloc::AllocError;
use std::collections::BTreeSet;
use ticket_items::Refusal;

/// Looks at the names of a shop: of a master, under a name, and of its workers.
pub(crate) fn look_at_names<'a>(
    walk: &mut Walk<'a>,
    shop: &LocatedValue<'a>,
    master: &str,
    refusal: Refusal,
) -> Result<(), AllocError> {
    let mut before = BTreeSet::new(walk.alloc);
    if let Some(name) = shop.text_under(master) {
        before.insert(name)?;
    }
    walk.enter("Workers")?;
    for (index, worker) in shop.items_under("Workers").iter().enumerate() {
        if let LocatedValue::Text(at, name) = worker {
            walk.enter_item(index)?;
            if !before.insert(*name)? {
                tell_twice(walk, *at, name, refusal)?;
            }
            walk.leave();
        }
    }
    walk.leave();
    Ok(())
}

/// Tells that a name is another controller's too.
fn tell_twice(
    walk: &mut Walk<'_>,
    at: usize,
    name: &str,
    refusal: Refusal,
) -> Result<(), AllocError> {
    if !walk.seeks(refusal) {
        return Ok(());
    }
    let what = format!(in walk.alloc; "another controller is called {} too", QuotedText(name))?;
    walk.tell(at, what.as_str())
}

/// Looks at the names of a worker and of its master, which are told apart.
pub(crate) fn look_at_worker<'a>(
    walk: &mut Walk<'a>,
    worker: &LocatedValue<'a>,
    name: &'a str,
    refusal: Refusal,
) -> Result<(), AllocError> {
    let Some(LocatedValue::Text(at, own)) = worker.member(name) else {
        return Ok(());
    };
    if worker.text_under("Master") != Some(*own) {
        return Ok(());
    }
    walk.enter(name)?;
    tell_twice(walk, *at, own, refusal)?;
    walk.leave();
    Ok(())
}

/// Looks at the orders of a script: those to the master are a master's, all others a worker's.
pub(crate) fn look_at_orders<'a>(
    walk: &mut Walk<'a>,
    script: &LocatedValue<'a>,
) -> Result<(), AllocError> {
    let master = script.text_under("Master");
    walk.enter("Events")?;
    for (index, event) in script.items_under("Events").iter().enumerate() {
        walk.enter_item(index)?;
        if let Some(order) = event.member("Order") {
            walk.enter("Order")?;
            look_at_order(walk, order, event.text_under("To") == master)?;
            walk.leave();
        }
        walk.leave();
    }
    walk.leave();
    Ok(())
}

/// Looks at an order to a master or to a worker.
fn look_at_order(
    walk: &mut Walk<'_>,
    order: &LocatedValue<'_>,
    to_master: bool,
) -> Result<(), AllocError> {
    let (wanted, what) = if to_master {
        (
            Definition::MasterOrder,
            "the order is no master's, to whom it goes",
        )
    } else {
        (
            Definition::WorkerOrder,
            "the order is no worker's, and goes to no master",
        )
    };
    let either = Definition::EventOrder;
    if walk.seeks(Refusal::NotProfile)
        && weigh(order, Rule::Object(either), either) == 0
        && weigh(order, Rule::Object(wanted), wanted) > 0
    {
        walk.tell(order.at(), what)?;
    }
    Ok(())
}
