//! What a look puts in the lines of the courier.

ghost use Rattle.std.specs.Prelude.{◌≡◌, ◌<◌, ℕ, true, Some, length, All, IfOk, OnOk, OnErr};
ghost use Rattle.std.specs.Prelude.{if◌then◌else◌, is_some, take};
ghost use Rattle.courier.specs.Table as table;
ghost use Rattle.deliveries.specs.Ledger.{IsHeld, IsInLine, IsRouted, is_waiting, line_for};
ghost use Rattle.deliveries.specs.Ledger.{IsMarked, thing_in_flight};
ghost use Rattle.deliveries.specs.Outbox.{progress_after_look, progress_in, seen_again};
ghost use Rattle.deliveries.specs.Routes.{is_thing, line_of, thing_at};
ghost use Rattle.deliveries.specs.Sending.{IsKnown, IsPut};
ghost use Rattle.deliveries.specs.declared.thing.Thing.{Thing};

use crate::outbox::Outbox;
use crate::outboxes::Outboxes;
use crate::progress::Progress;
use crate::routes::Routes;
use crate::thing::Thing;
use courier::Courier;
use std::alloc::{AllocError, Global};
use ticket_items::SpawnId;

/// The thing that is in flight to a destination.
pub(crate) fn thing_in_flight(courier: &Courier, routes: &Routes, line: usize) -> Option<Thing>
    ensures { result ≡ thing_in_flight courier.now routes.now line }
{
    let item = courier.in_flight(line)?;
    let (thing, _line) = routes.get(item)?;
    Some(thing)
}

/// Changes the progress of what is in flight to a destination, if it is out. With `None` it is out
/// no longer.
pub(crate) fn mark(
    courier: &Courier,
    routes: &Routes,
    boxes: &mut Outboxes,
    line: usize,
    to: Option<Progress>,
)
    ensures { IsMarked (thing_in_flight courier.now routes.now line) to boxes.old boxes.new }
{
    if let Some(thing) = thing_in_flight(courier, routes, line) {
        boxes.mark(&thing, to);
    }
}

/// For which destination a thing is from now on: that which is told, unless it is in flight to its
/// own.
fn line_for(courier: &Courier, routes: &Routes, thing: Thing, told: usize) -> usize
    ensures { result ≡ line_for courier.now routes.now thing told }
{
    match routes.line_of(&thing) {
        None => told,
        Some(line) => match thing_in_flight(courier, routes, line) {
            None => told,
            Some(flying) => if thing == flying { line } else { told },
        },
    }
}

/// A thing is for this destination, unless it is in flight to its own, and in the line of that if
/// it waits.
pub(crate) fn send(
    courier: &mut Courier,
    routes: &mut Routes,
    thing: Thing,
    told: usize,
    waits: bool,
) -> Result<(), AllocError>
    requires within { told < length courier.old }
    requires routed { IsRouted courier.old routes.old }
    ensures known { OnOk result (IsKnown thing (line_for courier.old routes.old thing told)
        routes.old routes.new) }
    ensures put { OnOk result ((item : ℕ) × (thing_at routes.new item ≡ Some thing)
        × (courier.new ≡ if waits
        then table.put item courier.old (line_for courier.old routes.old thing told)
        else courier.old)) }
    ensures in_line { OnOk result (waits ≡ true → IsInLine courier.new routes.new thing) }
    ensures err { OnErr result (courier.new ≡ courier.old) }
    ensures things { (item : ℕ) (t : Thing) → thing_at routes.old item ≡ Some t
        → thing_at routes.new item ≡ Some t }
    ensures routed { IsRouted courier.new routes.new }
    ensures kept { (t : Thing) → (is_thing thing t ≡ true → waits ≡ true)
        → IsInLine courier.old routes.old t → IsInLine courier.new routes.new t }
    ensures lined { (t : Thing) → is_some (line_of routes.old t) ≡ true
        → is_some (line_of routes.new t) ≡ true }
    ensures long { length courier.new ≡ length courier.old }
{
    let line = line_for(courier, routes, thing, told);
    let item = routes.intern(&thing, line)?;
    if waits {
        courier.put(line, item)?;
    }
    routes.redirect(&thing, line);
    Ok(())
}

/// What a controller has out is just this: what it had before, and the progress of each of these.
/// Each that waits is in the line of its destination, behind the others.
pub(crate) fn send_all(
    alloc: Global,
    courier: &mut Courier,
    routes: &mut Routes,
    controller: usize,
    had: &Outbox,
    out: &[(SpawnId, usize)],
) -> Result<Outbox, AllocError>
    requires within { All (λ o. o.1 < length courier.old) out.now }
    requires routed { IsRouted courier.old routes.old }
    ensures looked { IfOk result (λ new. (s : ℕ) → progress_in new s
        ≡ progress_after_look had.now out.now s) }
    ensures held { IfOk result (λ new. (s : ℕ) → IsHeld courier.new routes.new
        (record { controller = controller; spawn = s }) (progress_in new s)) }
    ensures put { OnOk result
        (IsPut controller had.now out.now courier.old routes.new courier.new) }
    ensures err { OnErr result ((k : ℕ)
        × IsPut controller had.now (take k out.now) courier.old routes.new courier.new) }
    ensures routed { IsRouted courier.new routes.new }
    ensures kept { (t : Thing)
        → (t.controller ≡ controller
        → is_waiting (Some (seen_again (progress_in had.now t.spawn))) ≡ true)
        → IsInLine courier.old routes.old t → IsInLine courier.new routes.new t }
    ensures lined { (t : Thing) → is_some (line_of routes.old t) ≡ true
        → is_some (line_of routes.new t) ≡ true }
    ensures long { length courier.new ≡ length courier.old }
{
    let mut outbox = Outbox::new(alloc);
    for told in out {
        let (spawn, line) = *told;
        let progress = had.get(spawn).unwrap_or(Progress::Waiting);
        let thing = Thing { controller, spawn };
        send(courier, routes, thing, line, progress.is_waiting())?;
        outbox.insert(spawn, progress)?;
    }
    Ok(outbox)
}
