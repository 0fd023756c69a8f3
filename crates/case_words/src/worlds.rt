//! A worker of a world, and the same worker beside a keeper.

use controller_form::StateForm;
use jmf_message::decode;
use keepers::{Keep, MemoryKeep};
use std::alloc::{AllocError, Global};
use stored_state::{Kept, StoredController};
use streams::Refused;
use ticket_tree::{Duplicate, Id, Ids, Items, Refusal, Ticket};
use worker_core::Worker;
use world::World;
use world_items::{Answer, Event, What};
use world_script::{Script, script_of};

type Beside = Kept<Worker, MemoryKeep>;

/// A shop in which events happen. Functions over any are proved once, and the one that they hold
/// isn't taken apart there.
trait Shop: Drop {
    /// What comes of an event.
    type Told: Drop;

    /// The shop in its beginning.
    fn begun(alloc: Global, master: Id, workers: Ids, ticket: Ticket) -> Result<Self, Refusal>;

    /// Lets an event happen.
    fn happen(&mut self, alloc: Global, event: Event) -> Result<Self::Told, AllocError>;

    /// The text of the state of the controller of a name.
    fn stored(&self, name: &Id) -> Option<&[u8]>;

    /// The text of the message of a number.
    fn sent(&self, number: u64) -> Option<&[u8]>;
}

impl Shop for World {
    type Told = Answer;

    fn begun(alloc: Global, master: Id, workers: Ids, ticket: Ticket) -> Result<World, Refusal> {
        World::new(alloc, master, workers, ticket)
    }

    fn happen(&mut self, alloc: Global, event: Event) -> Result<Answer, AllocError> {
        self.step(alloc, event)
    }

    fn stored(&self, name: &Id) -> Option<&[u8]> {
        World::stored(self, name)
    }

    fn sent(&self, number: u64) -> Option<&[u8]> {
        let place = number.saturating_sub(1) as usize;
        let text = self.messages().get(place)?;
        Some(text.as_slice())
    }
}

/// `kept NAME`: a script, in which what a worker is told and gets is also given to one beside a
/// keeper, which is loaded again each time. A word for each event tells whether both states have
/// the same text then; behind them stands the text of the one in the world.
pub fn kept(alloc: Global, name: &str, input: &[u8]) -> Result<Vec<u8>, Refused> {
    let name = Id::new(alloc, name)?;
    let script = script_of(alloc, input)?;
    let mut beside = beside(alloc, &name, &script.master)?;
    let line = in_shop::<World>(alloc, &mut beside, &name, script);
    drop(beside);
    line
}

/// The line for a script.
fn in_shop<S: Shop>(
    alloc: Global,
    beside: &mut Beside,
    name: &Id,
    script: Script,
) -> Result<Vec<u8>, Refused> {
    let Script {
        master,
        workers,
        ticket,
        events,
    } = script;
    match S::begun(alloc, master, workers, ticket) {
        Ok(mut shop) => {
            let line = line_for(alloc, &mut shop, beside, name, events);
            drop(shop);
            line
        }
        Err(refusal) => {
            drop(events);
            Err(refusal.into())
        }
    }
}

/// The line for events.
fn line_for<S: Shop>(
    alloc: Global,
    shop: &mut S,
    beside: &mut Beside,
    name: &Id,
    events: Items<Event>,
) -> Result<Vec<u8>, Refused> {
    let mut line = played(alloc, shop, beside, name, events)?;
    line.extend_from_slice(shop.stored(name).unwrap_or(&[]))?;
    line.push(b'\n').map_err(AllocError::from)?;
    Ok(line)
}

/// The worker of a name in its beginning, beside a keeper in memory.
fn beside(alloc: Global, name: &Id, master: &Id) -> Result<Beside, Refused> {
    let worker = Worker::new(alloc, name.copy(alloc)?, master.copy(alloc)?)?;
    Kept::create(alloc, worker, MemoryKeep::new(Vec::new(alloc)))
}

/// Lets events happen in a shop and beside it, and tells after each whether both are the same.
fn played<S: Shop>(
    alloc: Global,
    shop: &mut S,
    beside: &mut Beside,
    name: &Id,
    events: Items<Event>,
) -> Result<Vec<u8>, Refused> {
    let mut words = Vec::new(alloc);
    for event in events.into_vec() {
        let word = word_after(alloc, shop, beside, name, event)?;
        words.extend_from_slice(word.as_bytes())?;
    }
    Ok(words)
}

/// Lets an event happen in a shop and beside it, and tells whether both are the same then.
fn word_after<S: Shop>(
    alloc: Global,
    shop: &mut S,
    beside: &mut Beside,
    name: &Id,
    event: Event,
) -> Result<&'static str, Refused> {
    let stepped = step_beside(alloc, shop, beside, name, &event);
    let told = shop.happen(alloc, event)?;
    drop(told);
    stepped?;
    let word = if is_same(alloc, shop, beside, name)? {
        "same "
    } else {
        "other "
    };
    Ok(word)
}

/// Lets an event happen to the worker beside its keeper, which is loaded again then.
fn step_beside<S: Shop>(
    alloc: Global,
    shop: &S,
    beside: &mut Beside,
    name: &Id,
    event: &Event,
) -> Result<(), Refused> {
    happens_beside(alloc, shop, beside, name, event)?;
    beside.reload(alloc)
}

/// The worker beside its keeper is told what the one of its name is, and gets the texts of the
/// messages that come to that.
fn happens_beside<S: Shop>(
    alloc: Global,
    shop: &S,
    beside: &mut Beside,
    name: &Id,
    event: &Event,
) -> Result<(), Refused> {
    match &event.what {
        What::WorkerOrder(worker, order) if worker == name => {
            order_beside(alloc, beside, order.copy(alloc)?, event.at)
        }
        What::Deliver(number) => match shop.sent(*number) {
            Some(text) => deliver_beside(alloc, beside, name, text, event.at),
            None => Ok(()),
        },
        What::WorkerOrder(..) | What::MasterOrder(_) | What::Restart(_) => Ok(()),
    }
}

/// The worker beside its keeper is told to do something.
fn order_beside<C: StoredController, K: Keep>(
    alloc: Global,
    beside: &mut Kept<C, K>,
    order: C::Order,
    at: u64,
) -> Result<(), Refused> {
    let given = beside.order(alloc, order, at)?;
    drop(given);
    Ok(())
}

/// The worker beside its keeper gets the text of a message, if that is to it.
fn deliver_beside(
    alloc: Global,
    beside: &mut Beside,
    name: &Id,
    text: &[u8],
    at: u64,
) -> Result<(), Refused> {
    if decode(alloc, text)?.receiver == *name {
        beside.take(alloc, text, at)?;
    }
    Ok(())
}

/// Whether the text of the state of the worker is the one that the shop has.
fn is_same<S: Shop>(
    alloc: Global,
    shop: &S,
    beside: &Beside,
    name: &Id,
) -> Result<bool, AllocError> {
    let text = beside.controller().state_text(alloc)?;
    Ok(shop.stored(name) == Some(text.as_slice()))
}
