//! A worked day by command lines, quiet and with one save cut off, against the same events in a
//! world.

mod cut_keepers;
mod texts;

use controller_form::push_shown;
use cut_keepers::{CutKeepers, NamedCuts};
use keepers::{Cut, CutKeep};
use master_core::Master;
use shop_day::{Call, Line, Outcome, run_day};
use std::alloc::Global;
use std::test::Fail;
use stored_state::{KeptSeat, Refused};
use streams::Fault;
use texts::{SCRIPT, STEPS, Step};
use ticket_tree::Id;
use worker_core::Worker;
use world::{Seats, World, begin};
use world_script::{Script, script_of};

/// The shop of a day.
type Shop = Seats<KeptSeat<Master, CutKeep>, KeptSeat<Worker, CutKeep>>;

/// The text of the ticket that the master shows behind the events of the script, in a world.
fn shown_by_world(alloc: Global) -> Result<Vec<u8>, Fail> {
    let Script {
        master,
        workers,
        ticket,
        events,
    } = script_of(alloc, SCRIPT.as_bytes())?;
    let mut world = World::new(alloc, master, workers, ticket)?;
    drop(world.run(alloc, events.into_vec())?);
    let mut text = Vec::new(alloc);
    push_shown(alloc, &mut text, world.master())?;
    Ok(text)
}

/// The shop of the script in its beginning, of which a save of the controller of a name is cut off.
fn shop_with(alloc: Global, name: &str, cuts: Vec<Cut>) -> Result<Shop, Fail> {
    let Script {
        master,
        workers,
        ticket,
        events,
    } = script_of(alloc, SCRIPT.as_bytes())?;
    drop(events);
    let mut named = Vec::new(alloc);
    named.push(NamedCuts {
        name: Id::new(alloc, name)?,
        cuts,
    })?;
    Ok(begin(alloc, &mut CutKeepers::new(named), master, workers, ticket)?)
}

/// What a line comes to.
fn done(alloc: Global, shop: &mut Shop, call: Call, at: u64) -> Result<Option<Outcome>, Fail> {
    let mut lines = Vec::new(alloc);
    lines.push(Line { call, at })?;
    Ok(run_day(alloc, shop, lines)?.pop())
}

/// An order to the controller of a name.
fn order(alloc: Global, to: &str, text: &str) -> Result<Call, Fail> {
    let bytes = Vec::from_slice(alloc, text.as_bytes())?;
    Ok(Call::Order(Id::new(alloc, to)?, bytes))
}

/// What a step asks for: an order, or that the message that was sent last is taken.
fn asked(alloc: Global, step: &Step, last: u64) -> Result<Call, Fail> {
    if step.to.is_empty() {
        return Ok(Call::Take(last));
    }
    order(alloc, step.to, step.text)
}

/// Whether such a text was written.
fn wrote(outcome: &Option<Outcome>, front: &str) -> bool {
    match outcome {
        Some(Outcome::Wrote(output)) => output.text.as_slice().starts_with(front.as_bytes()),
        Some(Outcome::GaveUp(_)) => false,
        None => false,
    }
}

/// Whether a line gave up because a save failed.
fn gave_up(outcome: &Option<Outcome>) -> bool {
    match outcome {
        Some(Outcome::GaveUp(fault)) => *fault == Fault::Device(Refused::SaveFailed),
        Some(Outcome::Wrote(_)) => false,
        None => false,
    }
}

/// Whether a step that gave up comes to its line when it is given again; or to that of a step that
/// was made already, of which the message is sent once more, if it has one.
fn comes_again(alloc: Global, shop: &mut Shop, step: &Step, last: u64) -> Result<bool, Fail> {
    let again = done(alloc, shop, asked(alloc, step, last)?, step.at)?;
    if wrote(&again, step.line) || (wrote(&again, step.again) && step.resend.is_empty()) {
        return Ok(true);
    }
    let sent = done(alloc, shop, order(alloc, step.to, step.resend)?, step.at)?;
    Ok(wrote(&again, step.again) && wrote(&sent, "Sent S1\n"))
}

/// Whether a step comes to its line, now or when it is given again.
fn comes(alloc: Global, shop: &mut Shop, step: &Step) -> Result<bool, Fail> {
    let last = shop.messages().len() as u64;
    let outcome = done(alloc, shop, asked(alloc, step, last)?, step.at)?;
    if gave_up(&outcome) {
        return comes_again(alloc, shop, step, last);
    }
    Ok(wrote(&outcome, step.line))
}

/// Whether all steps of the day do.
fn all_come(alloc: Global, shop: &mut Shop) -> Result<bool, Fail> {
    for step in STEPS.iter() {
        if !comes(alloc, shop, step)? {
            return Ok(false);
        }
    }
    Ok(true)
}

/// Whether the master shows this text.
fn shows(alloc: Global, shop: &mut Shop, text: &[u8]) -> Result<bool, Fail> {
    let shown = done(alloc, shop, Call::Show(Id::new(alloc, "mis")?), 200)?;
    Ok(match &shown {
        Some(Outcome::Wrote(output)) => output.text.as_slice() == text,
        Some(Outcome::GaveUp(_)) => false,
        None => false,
    })
}

/// Whether the day comes to its end where a save of a controller is cut off so.
fn ends_well(alloc: Global, name: &str, cuts: Vec<Cut>, text: &[u8]) -> Result<bool, Fail> {
    let mut shop = shop_with(alloc, name, cuts)?;
    Ok(all_come(alloc, &mut shop)? && shows(alloc, &mut shop, text)?)
}

/// Cuts of which the one behind so many saves is this.
fn cut_behind(alloc: Global, saves: u8, cut: Cut) -> Result<Vec<Cut>, Fail> {
    let mut cuts = Vec::new(alloc);
    for _ in 0..saves {
        cuts.push(Cut { call: 0, left: 0 })?;
    }
    cuts.push(cut)?;
    Ok(cuts)
}

#[test]
fn quiet_day(rt: HostRuntime) -> Result<(), Fail> {
    let text = shown_by_world(rt.alloc())?;
    assert!(rt; ends_well(rt.alloc(), "mis", Vec::new(rt.alloc()), text.as_slice())?);
    Ok(())
}

/// Whether the day comes to its end where the save behind so many is cut off at any call.
fn ends_at_any_call(alloc: Global, name: &str, saves: u8, text: &[u8]) -> Result<bool, Fail> {
    for call in 1..=8u8 {
        for left in 0..3u8 {
            let cut = Cut {
                call: u64::from(call),
                left: usize::from(left),
            };
            if !ends_well(alloc, name, cut_behind(alloc, saves, cut)?, text)? {
                return Ok(false);
            }
        }
    }
    Ok(true)
}

#[test]
fn saves_that_are_cut_off(rt: HostRuntime) -> Result<(), Fail> {
    let text = shown_by_world(rt.alloc())?;
    for saves in 1..=5u8 {
        let master = ends_at_any_call(rt.alloc(), "mis", saves, text.as_slice())?;
        assert!(rt; master, "{saves}");
        let worker = ends_at_any_call(rt.alloc(), "press", saves, text.as_slice())?;
        assert!(rt; worker, "{saves}");
    }
    Ok(())
}
