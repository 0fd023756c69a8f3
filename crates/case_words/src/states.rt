//! States of controllers.

use crate::calls::copies_of;
use crate::forms::{line, line_of};
use keepers::MemoryKeep;
use master_core::Master;
use std::alloc::Global;
use stored_state::{AnyKept, StoredController, open_any};
use streams::Refused;
use ticket_tree::{Duplicate, Refusal};
use worker_core::Worker;

/// What a controller's state is written as.
fn state_line<C: StoredController>(alloc: Global, controller: &C) -> Result<Vec<u8>, Refused> {
    Ok(line(controller.state_text(alloc)?)?)
}

/// `state`: what the state that is read is written as.
pub fn again(alloc: Global, text: &[u8]) -> Result<Vec<u8>, Refused> {
    let opened = open_any(alloc, MemoryKeep::new(Vec::from_slice(alloc, text)?))?;
    let line = match &opened {
        AnyKept::Master(kept) => state_line(alloc, kept.controller()),
        AnyKept::Worker(kept) => state_line(alloc, kept.controller()),
    };
    drop(opened);
    line
}

/// A controller that can be made of copies of what it has.
trait Copied: StoredController {
    /// One of copies of what it has.
    fn copied(&self, alloc: Global) -> Result<Self, Refusal>;
}

impl Copied for Master {
    fn copied(&self, alloc: Global) -> Result<Master, Refusal> {
        let name = self.name().copy(alloc)?;
        let workers = copies_of(alloc, self.workers())?;
        let records = copies_of(alloc, self.records())?;
        let ticket = self.ticket().copy(alloc)?;
        Master::of_parts(alloc, name, workers, ticket, records.into_vec())
    }
}

impl Copied for Worker {
    fn copied(&self, alloc: Global) -> Result<Worker, Refusal> {
        let name = self.name().copy(alloc)?;
        let master = self.master().copy(alloc)?;
        let entries = copies_of(alloc, self.entries())?;
        Worker::of_parts(alloc, name, master, entries.into_vec())
    }
}

/// The value that the state of a controller of copies is.
fn value_line<C: Copied>(alloc: Global, controller: &C) -> Result<Vec<u8>, Refused> {
    let copied = controller.copied(alloc)?;
    Ok(line_of(alloc, &copied.state_value(alloc)?)?)
}

/// `state_value`: the value that the state is of a controller of copies of what the one has whose
/// state is read.
pub fn value_again(alloc: Global, text: &[u8]) -> Result<Vec<u8>, Refused> {
    let opened = open_any(alloc, MemoryKeep::new(Vec::from_slice(alloc, text)?))?;
    let line = match &opened {
        AnyKept::Master(kept) => value_line(alloc, kept.controller()),
        AnyKept::Worker(kept) => value_line(alloc, kept.controller()),
    };
    drop(opened);
    line
}
