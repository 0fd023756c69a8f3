ghost use Rattle.std.specs.Prelude.{◌≡◌, ◌<◌, ◌==◌, ℕ, [], length, if◌then◌else◌, OnOk};
ghost use Rattle.deliveries.specs.Ledger.{outbox_at, progress_of, progress_with};
ghost use Rattle.deliveries.specs.declared.thing.Thing.{Thing};

use crate::outbox::Outbox;
use crate::progress::Progress;
use crate::thing::Thing;
use std::alloc::{AllocError, Global};
use std::marker::Model;

/// What all controllers have out, by their numbers.
#[derive(Drop)]
pub(crate) struct Outboxes {
    boxes: Vec<Outbox>,
}

impl Model for Outboxes {
    ghost use Rattle.std.specs.Prelude.{List};
    ghost use Rattle.deliveries.specs.Outbox.{Outbox};

    ghost Value = { List Outbox };

    ghost view = { λ a. a.boxes.items };
}

impl Outboxes {
    /// Nothing is out.
    pub(crate) fn new(alloc: Global) -> Outboxes
        ensures { result ≡ [] }
    {
        Outboxes {
            boxes: Vec::new(alloc),
        }
    }

    /// Makes a place for a controller.
    pub(crate) fn reach(&mut self, alloc: Global, controller: usize) -> Result<(), AllocError>
        ensures ok { OnOk result (controller < length self.new) }
        ensures same { (k : ℕ) → outbox_at self.new k ≡ outbox_at self.old k }
    {
        while self.boxes.len() <= controller {
            self.boxes.push(Outbox::new(alloc))?;
        }
        Ok(())
    }

    /// What one controller has out.
    pub(crate) fn get(&self, controller: usize) -> &Outbox
        requires { controller < length self.now }
        ensures { result.now ≡ outbox_at self.now controller }
    {
        &self.boxes[controller]
    }

    /// One controller has just this out.
    pub(crate) fn set(&mut self, controller: usize, outbox: Outbox)
        requires { controller < length self.old }
        ensures { (k : ℕ) → outbox_at self.new k
            ≡ if controller == k then outbox else outbox_at self.old k }
    {
        self.boxes[controller] = outbox;
    }

    /// The progress of a thing, if it is out.
    pub(crate) fn progress(&self, thing: &Thing) -> Option<Progress>
        ensures { result ≡ progress_of self.now thing.now }
    {
        if thing.controller < self.boxes.len() {
            self.boxes[thing.controller].get(thing.spawn)
        } else {
            None
        }
    }

    /// Changes the progress of a thing, if it is out. With `None` it is out no longer.
    pub(crate) fn mark(&mut self, thing: &Thing, to: Option<Progress>)
        ensures { (t : Thing) → progress_of self.new t ≡ progress_with self.old thing.now to t }
    {
        if thing.controller < self.boxes.len() {
            self.boxes[thing.controller].mark(thing.spawn, to);
        }
    }
}
