//! Who may change what, after each event.

use crate::calls::ids_of;
use std::alloc::{AllocError, Global};
use streams::Refused;
use ticket_tree::{Id, Ids, Items, Refusal, Ticket};
use worker_core::Worker;
use world::World;
use world_items::{Answer, Event};
use world_script::{Script, script_of};

/// A shop in which events happen, and whose controllers may change things. Functions over any are
/// proved once, and the one that they hold isn't taken apart there.
trait Changing: Drop {
    /// What comes of an event.
    type Told: Drop;

    /// The shop in its beginning.
    fn begun(alloc: Global, master: Id, workers: Ids, ticket: Ticket) -> Result<Self, Refusal>;

    /// Lets an event happen.
    fn happen(&mut self, alloc: Global, event: Event) -> Result<Self::Told, AllocError>;

    /// Appends the names of those who may change something, a worker's with the spawn.
    fn push_names(&self, alloc: Global, text: &mut String, id: &Id) -> Result<(), AllocError>;
}

impl Changing for World {
    type Told = Answer;

    fn begun(alloc: Global, master: Id, workers: Ids, ticket: Ticket) -> Result<World, Refusal> {
        World::new(alloc, master, workers, ticket)
    }

    fn happen(&mut self, alloc: Global, event: Event) -> Result<Answer, AllocError> {
        self.step(alloc, event)
    }

    fn push_names(&self, alloc: Global, text: &mut String, id: &Id) -> Result<(), AllocError> {
        let master = self.master();
        if master.may_change(id) {
            push_word(text, master.name().as_str())?;
        }
        for name in master.workers() {
            if let Some(worker) = self.worker(name) {
                push_worker(alloc, text, worker, id)?;
            }
        }
        Ok(())
    }
}

/// Appends a word behind a space.
fn push_word(text: &mut String, word: &str) -> Result<(), AllocError> {
    text.push(' ')?;
    text.push_str(word)
}

/// Appends the name of a worker with each spawn through which it may change something.
fn push_worker(
    alloc: Global,
    text: &mut String,
    worker: &Worker,
    id: &Id,
) -> Result<(), AllocError> {
    for entry in worker.entries() {
        if worker.may_change(entry.spawn_id, id) {
            push_word(text, worker.name().as_str())?;
            push_word(text, entry.spawn_id.to_id(alloc)?.as_str())?;
        }
    }
    Ok(())
}

/// `changers ID ..`: a script, and for each event of it those who may change each id then, on one
/// line.
pub fn changers(alloc: Global, ids: &[String], input: &[u8]) -> Result<Vec<u8>, Refused> {
    let ids = ids_of(alloc, ids)?;
    Ok(line_in::<World>(alloc, ids.as_slice(), script_of(alloc, input)?)?)
}

/// The line for a script.
fn line_in<S: Changing>(alloc: Global, ids: &[Id], script: Script) -> Result<Vec<u8>, Refusal> {
    let Script {
        master,
        workers,
        ticket,
        events,
    } = script;
    match S::begun(alloc, master, workers, ticket) {
        Ok(mut shop) => {
            let line = line_for(alloc, &mut shop, ids, events);
            drop(shop);
            Ok(line?)
        }
        Err(refusal) => {
            drop(events);
            Err(refusal)
        }
    }
}

/// The line for events.
fn line_for<S: Changing>(
    alloc: Global,
    shop: &mut S,
    ids: &[Id],
    events: Items<Event>,
) -> Result<Vec<u8>, AllocError> {
    let mut line = String::new(alloc);
    for event in events.into_vec() {
        let told = shop.happen(alloc, event)?;
        drop(told);
        if !line.is_empty() {
            line.push_str("; ")?;
        }
        push_changers(alloc, &mut line, shop, ids)?;
    }
    line.push('\n')?;
    Ok(line.into_bytes())
}

/// Appends who may change each id.
fn push_changers<S: Changing>(
    alloc: Global,
    line: &mut String,
    shop: &S,
    ids: &[Id],
) -> Result<(), AllocError> {
    let mut between = "";
    for id in ids {
        line.push_str(between)?;
        line.push_str(id.as_str())?;
        shop.push_names(alloc, line, id)?;
        between = ", ";
    }
    Ok(())
}
