//! What a line comes to.

ghost use Rattle.std.specs.Prelude.{IfOk, OnErr};
ghost use Rattle.shop_day.specs.Done as done;
ghost use Rattle.shop_day.specs.declared.line.Call.TheVariants.{Order, Take, Show};

use crate::asking::asked_of;
use crate::line::{Call, Line};
use crate::outcome::Outcome;
use crate::sending::was_sent;
use crate::showing::shown_by;
use crate::stepping::step_outcome;
use file_commands::fault_of;
use keepers::Keep;
use master_core::Master;
use std::alloc::{AllocError, Global};
use stored_state::{KeptSeat, Refused};
use streams::{Fault, Output};
use ticket_tree::{Duplicate, Id};
use worker_core::Worker;
use world::{Direct, Seats};
use world_items::{Event, Stop, What};

/// What an order comes to.
fn order_outcome<K: Keep>(
    alloc: Global,
    shop: &mut Seats<KeptSeat<Master, K>, KeptSeat<Worker, K>>,
    name: Id,
    bytes: Vec<u8>,
    at: u64,
) -> Result<Outcome, AllocError>
    ensures done { IfOk result (done.DoesLine (record { call = Order name bytes; at = at })
        shop.old shop.new) }
    ensures untold { OnErr result (done.IsUntold (record { call = Order name bytes; at = at })
        shop.old shop.new) }
{
    match asked_of(alloc, shop, &name, bytes.as_slice()) {
        Ok(what) => step_outcome(alloc, shop, what, at),
        Err(fault) => Ok(Outcome::GaveUp(fault)),
    }
}

/// What the message of a number comes to.
fn take_outcome<K: Keep>(
    alloc: Global,
    shop: &mut Seats<KeptSeat<Master, K>, KeptSeat<Worker, K>>,
    number: u64,
    at: u64,
) -> Result<Outcome, AllocError>
    ensures done { IfOk result (done.DoesLine (record { call = Take number; at = at })
        shop.old shop.new) }
    ensures untold { OnErr result (done.IsUntold (record { call = Take number; at = at })
        shop.old shop.new) }
{
    if !was_sent(shop.messages(), number) {
        return Ok(Outcome::GaveUp(Fault::Device(Refused::ReadFailed)));
    }
    step_outcome(alloc, shop, What::Deliver(number), at)
}

/// What the controller of a name shows, as an outcome. Where it isn't known which controller it is,
/// or there is none, nothing was loaded.
fn shown_outcome<K: Keep>(
    alloc: Global,
    shop: &Seats<KeptSeat<Master, K>, KeptSeat<Worker, K>>,
    name: Id,
    at: u64,
) -> Result<Outcome, AllocError>
    ensures { IfOk result (done.DoesLine (record { call = Show name; at = at })
        shop.now shop.now) }
{
    match shown_by(alloc, shop, &name)? {
        Some(text) => Ok(Outcome::Wrote(Output {
            text,
            refused: false,
        })),
        None => Ok(Outcome::GaveUp(Fault::Device(Refused::LoadFailed))),
    }
}

/// What a look comes to: the controller is started again before.
fn show_outcome<K: Keep>(
    alloc: Global,
    shop: &mut Seats<KeptSeat<Master, K>, KeptSeat<Worker, K>>,
    name: Id,
    at: u64,
) -> Result<Outcome, AllocError>
    ensures done { IfOk result (done.DoesLine (record { call = Show name; at = at })
        shop.old shop.new) }
    ensures untold { OnErr result (done.IsUntold (record { call = Show name; at = at })
        shop.old shop.new) }
{
    let event = Event {
        what: What::Restart(name.copy(alloc)?),
        at,
        stop: Stop::Run,
    };
    match shop.step(&mut Direct, alloc, event) {
        Ok(_) => shown_outcome(alloc, shop, name, at),
        Err(refused) => Ok(Outcome::GaveUp(fault_of(refused))),
    }
}

/// What a line comes to. Refuses where memory runs out for what is written.
pub fn line_outcome<K: Keep>(
    alloc: Global,
    shop: &mut Seats<KeptSeat<Master, K>, KeptSeat<Worker, K>>,
    line: Line,
) -> Result<Outcome, AllocError>
    // Proved: What a line writes is the reply and the text of the step that it asks for, or what
    // its controller shows; where it gives up it is as if its controller had stopped in the step,
    // before its state was stored or before its message was sent. Where memory runs out for what
    // is written, what the line asks for happened to its end, or not yet.
    // By `done`, `untold`.
    ensures done { IfOk result (done.DoesLine line shop.old shop.new) }
    ensures untold { OnErr result (done.IsUntold line shop.old shop.new) }
{
    let Line { call, at } = line;
    match call {
        Call::Order(name, bytes) => order_outcome(alloc, shop, name, bytes, at),
        Call::Take(number) => take_outcome(alloc, shop, number, at),
        Call::Show(name) => show_outcome(alloc, shop, name, at),
    }
}
