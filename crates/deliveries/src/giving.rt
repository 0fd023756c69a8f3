//! What the courier gives next of what waits.

ghost use Rattle.std.specs.Prelude.{◌≡◌};
ghost use Rattle.deliveries.specs.Ledger.{IsTied, due_thing};
ghost use Rattle.deliveries.specs.Sending.{IsGiven};

use crate::flight::Flight;
use crate::outboxes::Outboxes;
use crate::progress::Progress;
use crate::routes::Routes;
use crate::thing::Thing;
use courier::Courier;

/// The thing that the courier gives, if it waits for that destination.
fn due_thing(routes: &Routes, boxes: &Outboxes, flight: courier::Flight) -> Option<Thing>
    ensures { result ≡ due_thing routes.now boxes.now flight }
{
    let (thing, line) = routes.get(flight.item)?;
    if line != flight.line {
        return None;
    }
    match boxes.progress(&thing) {
        Some(Progress::Waiting) => Some(thing),
        _ => None,
    }
}

/// What is to be sent now, and is in flight from then on. What the courier gives that doesn't wait
/// is withdrawn.
pub(crate) fn next_due(
    courier: &mut Courier,
    routes: &Routes,
    boxes: &Outboxes,
    now: u64,
) -> Option<Flight>
    requires { IsTied courier.old routes.now boxes.now }
    ensures given { IsGiven now routes.now boxes.now courier.old courier.new result }
    ensures tied { IsTied courier.new routes.now boxes.now }
{
    while let Some(flight) = courier.next(now) {
        if let Some(thing) = due_thing(routes, boxes, flight) {
            return Some(Flight {
                line: flight.line,
                controller: thing.controller,
                spawn: thing.spawn,
            });
        }
        courier.withdraw_flight(flight.line);
    }
    None
}
