ghost use Rattle.std.specs.Prelude.{◌≡◌, [], Some, IfSome, IfOk, OnOk, OnErr};
ghost use Rattle.std.specs.Option.{option_map};
ghost use Rattle.deliveries.specs.Routes.{IsRedirected, line_of, thing_at, with_thing};

use crate::thing::Thing;
use indexmap::IndexMap;
use std::alloc::{AllocError, Global};
use std::marker::Model;

/// The things that were ever out, and for which destination each is. They stay for the run, so the
/// number of one doesn't change.
#[derive(Drop)]
pub(crate) struct Routes {
    things: IndexMap<Thing, usize>,
}

impl Model for Routes {
    ghost use Rattle.deliveries.specs.Routes.{Routes};

    ghost Value = { Routes };

    ghost view = { λ a. a.things.entries };
}

impl Routes {
    /// No things.
    pub(crate) fn new(alloc: Global) -> Routes
        ensures { result ≡ [] }
    {
        Routes {
            things: IndexMap::new(alloc),
        }
    }

    /// For which destination a thing is.
    pub(crate) fn line_of(&self, thing: &Thing) -> Option<usize>
        ensures { result ≡ line_of self.now thing.now }
    {
        self.things.get(thing).copied()
    }

    /// The thing of a number, and for which destination it is.
    pub(crate) fn get(&self, item: u64) -> Option<(Thing, usize)>
        ensures thing { option_map (λ r. r.0) result ≡ thing_at self.now item }
        ensures line { IfSome result (λ r. line_of self.now r.0 ≡ Some r.1) }
    {
        match self.things.get_index(item as usize) {
            None => None,
            Some((thing, line)) => Some((*thing, *line)),
        }
    }

    /// A thing is among them, behind the others and for this destination, unless it was. Answers
    /// its number.
    pub(crate) fn intern(&mut self, thing: &Thing, line: usize) -> Result<u64, AllocError>
        ensures thing { IfOk result (λ item. thing_at self.new item ≡ Some thing.now) }
        ensures ok { OnOk result (self.new ≡ with_thing thing.now line self.old) }
        ensures err { OnErr result (self.new ≡ self.old) }
    {
        if let Some(item) = self.things.get_index_of(thing) {
            return Ok(item as u64);
        }
        let item = self.things.len();
        self.things.insert(*thing, line)?;
        Ok(item as u64)
    }

    /// A thing that is among them is for this destination from now on.
    pub(crate) fn redirect(&mut self, thing: &Thing, line: usize)
        ensures { IsRedirected thing.now line self.old self.new }
    {
        if let Some(was) = self.things.get_mut(thing) {
            *was = line;
        }
    }
}
