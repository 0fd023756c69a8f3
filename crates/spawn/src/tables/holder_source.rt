//! Who holds what, by the table of holders where there is one, and else by the records.

ghost use Rattle.std.specs.Prelude.{◌≡◌, is_some, slice_get, true};
ghost use Rattle.std.specs.List.{list_all, list_any};
ghost use Rattle.std.specs.Option.{option_map};
ghost use Rattle.ticket_items.specs.Ids.{mem};
ghost use Rattle.ticket_items.specs.Resource.{resource_ids};
ghost use Rattle.ticket_rows.specs.Place.{places};
ghost use Rattle.ticket_rows.specs.Ticket.{has_node, ids, ids_of};
ghost use Rattle.plain_shop.specs.Claim as claim;
ghost use Rattle.plain_shop.specs.Claim.{linked_outside};
ghost use Rattle.spawn.specs.FirstHeld.{HasTable, first_answer, spawn_if_asked};
ghost use Rattle.spawn.specs.Spawning.{holding_claimed};
ghost use Rattle.spawn.specs.Table as table;

use crate::records::spawn_rec::SpawnRec;
use crate::tables::holders::Holders;
use crate::tables::table::holder_of;
use ticket_items::is_among;
use ticket_tree::{Id, NodeRow, Resource, Rows, SpawnId, Ticket};

/// What tells who holds an id: the table of holders where there is one, and else the records.
#[derive(Clone, Copy)]
pub struct HolderSource<'a> {
    pub ticket: &'a Ticket,
    pub records: &'a [SpawnRec],
    pub holders: Option<&'a Holders>,
}

impl HolderSource<'_> {
    /// The spawn that holds an id, if one does.
    fn spawn_with(&self, id: &Id) -> Option<SpawnId>
        requires { HasTable self.now }
        ensures { result ≡ table.spawn_with self.now.ticket.now.rows self.now.records.now id.now }
    {
        match self.holders {
            None => holder_of(self.ticket, self.records, id)?.as_spawn(),
            Some(holders) => holders.get(id),
        }
    }

    /// Whether a spawn holds one of these ids.
    fn has_spawn_with(&self, ids: &[Id]) -> bool
        requires { HasTable self.now }
        ensures { result ≡ list_any
            (λ x. is_some (table.spawn_with self.now.ticket.now.rows self.now.records.now x))
            ids.now }
    {
        ids.iter().any(|id| self.spawn_with(id).is_some())
    }

    /// The spawn that holds an id, if one does and the id is asked for: all are, or those among
    /// some.
    fn spawn_if_asked(&self, some: Option<&[Id]>, id: &Id) -> Option<SpawnId>
        requires { HasTable self.now }
        ensures { result
            ≡ spawn_if_asked self.now.ticket.now.rows self.now.records.now some.entry id.now }
    {
        match some {
            None => self.spawn_with(id),
            Some(ids) if is_among(ids, id) => self.spawn_with(id),
            Some(_) => None,
        }
    }

    /// Of what is asked for in a pool, the first that a spawn holds: that spawn.
    fn first_in_pool(&self, some: Option<&[Id]>, pool: &[Resource]) -> Option<SpawnId>
        requires { HasTable self.now }
        ensures { result ≡ first_answer
            (spawn_if_asked self.now.ticket.now.rows self.now.records.now some.entry)
            (resource_ids pool.now) }
    {
        for resource in pool {
            let found = self.spawn_if_asked(some, &resource.id);
            if found.is_some() {
                return found;
            }
        }
        None
    }

    /// The same of a node and its pool.
    fn first_in_row(&self, some: Option<&[Id]>, row: &NodeRow) -> Option<SpawnId>
        requires { HasTable self.now }
        ensures { result ≡ first_answer
            (spawn_if_asked self.now.ticket.now.rows self.now.records.now some.entry)
            (ids_of row.now) }
    {
        match self.spawn_if_asked(some, &row.id) {
            Some(found) => Some(found),
            None => self.first_in_pool(some, row.resources.as_slice()),
        }
    }

    /// The same of nodes and their pools.
    fn first_in_rows(&self, some: Option<&[Id]>, rows: &Rows<'_>) -> Option<SpawnId>
        requires { HasTable self.now }
        ensures { result ≡ first_answer
            (spawn_if_asked self.now.ticket.now.rows self.now.records.now some.entry)
            (ids rows.now) }
    {
        for place in 0..rows.len() {
            let row = rows.at(place);
            let found = self.first_in_row(some, row);
            if found.is_some() {
                return found;
            }
        }
        None
    }

    /// Of what a spawn of a node with copies of these resources to change would claim, the first in
    /// ticket order that a spawn holds: that spawn. The resources are at home above the node, so
    /// they come first; the rows in front are gone through only where a spawn holds one of them.
    pub fn first_holding(&self, node: &Id, rw: &[Id]) -> Option<SpawnId>
        requires table { HasTable self.now }
        requires known { has_node self.now.ticket.now.rows node.now ≡ true }
        requires linked { list_all
            (λ x. mem x (claim.ids_of (linked_outside (places self.now.ticket.now.rows) node.now)))
            rw.now ≡ true }
        ensures { result
            ≡ option_map (λ r. r.id) (slice_get
            (holding_claimed (places self.now.ticket.now.rows) self.now.records.now node.now rw.now)
            0) }
    {
        let at = self.ticket.at(node)?;
        if self.has_spawn_with(rw) {
            self.first_in_rows(Some(rw), &at.front)
        } else {
            self.first_in_rows(None, &at.below)
        }
    }
}
