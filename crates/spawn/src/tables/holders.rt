//! The table of holders, looked up by id.

ghost use Rattle.std.specs.Prelude.{◌≡◌, ◌++◌, ◌∷◌, [], ℕ, Bool, List, Some, None, is_some, map};
ghost use Rattle.std.specs.Prelude.{true, IfOk, IfSome, OnErr, OnOk};
ghost use Rattle.std.specs.List.{filter, list_any};
ghost use Rattle.std.specs.Str.{bytes_eq};
ghost use Rattle.ticket_items.specs.Ids.{mem};
ghost use Rattle.ticket_items.specs.Resource.{resource_ids};
ghost use Rattle.ticket_items.specs.declared.node_row.NodeRow.{NodeRow};
ghost use Rattle.ticket_rows.specs.Place.{places};
ghost use Rattle.ticket_rows.specs.Ticket.{IsValid, ids};
ghost use Rattle.spawn.specs.Holdings.{IsFree, IsGiven, IsSame, IsTable, OthersStay};
ghost use Rattle.spawn.specs.Holdings.{claims, holding_spawn};
ghost use Rattle.spawn.specs.Stored as stored;
ghost use Rattle.spawn.specs.Table as table;
ghost use Rattle.spawn.specs.declared.records.spawn_rec.SpawnRec.{SpawnRec};

use crate::claims::claimed::claim_of;
use crate::records::spawn_rec::SpawnRec;
use crate::tables::table::stands;
use std::alloc::{AllocError, Global};
use std::collections::BTreeMap;
use std::marker::Model;
use ticket_tree::{Duplicate, Id, Resource, Rows, SpawnId, Ticket};
use world_items::Holder;

/// Who holds each id of a ticket: the same as `holder_of`, without a walk. Kept of it are the ids
/// that spawns hold, in step with the ticket and the records by whoever changes those. They are in
/// order, so that ids that somebody chose are found as fast as others.
#[derive(Drop)]
pub struct Holders {
    spawns: BTreeMap<String, SpawnId>,
}

impl Model for Holders {
    ghost use Rattle.spawn.specs.Holdings.{Holdings, holdings_in};

    ghost Value = { Holdings };

    ghost view = { λ a. holdings_in a.spawns };
}

impl Holders {
    /// Those of a ticket of which nothing is out.
    pub fn new(alloc: Global) -> Holders
        ensures none { (f : List ℕ → Bool) → IsFree f result }
        ensures table { (rows : List NodeRow) → IsTable rows [] result }
    {
        Holders {
            spawns: BTreeMap::new(alloc),
        }
    }

    /// Those of a ticket by these records. `None` where two spawns that are out claim one node or
    /// resource (JDF 1.5, 4.4: what was spawned is changed in one place).
    pub fn of(
        alloc: Global,
        ticket: &Ticket,
        records: &[SpawnRec],
    ) -> Result<Option<Holders>, AllocError>
        // Proved: The table of holders is kept by id, just where no two claims meet.
        // By `test`, `table`; `Holders::new`: `none`, `table`; `Holders::get`,
        // `Holders::holder_of`.
        ensures test { IfOk result (λ found. is_some found
            ≡ stored.are_apart (places ticket.now.rows) records.now) }
        ensures table { IfOk result (λ found. IfSome found
            (λ h. IsTable ticket.now.rows records.now h)) }
        ensures valid { IsValid ticket.now.rows }
    {
        // Its rows are valid, whatever the records are.
        let _ = ticket.rows();
        let mut holders = Holders::new(alloc);
        for spawn in records {
            if !holders.claim(alloc, ticket, spawn)? {
                return Ok(None);
            }
        }
        Ok(Some(holders))
    }

    /// The spawn that holds an id. `None` where none does.
    pub fn get(&self, id: &Id) -> Option<SpawnId>
        ensures { result ≡ holding_spawn self.now id.now }
    {
        self.spawns.get(id.as_str()).copied()
    }

    /// Who holds an id: a spawn that is out, or else the master. `None` where it doesn't stand in
    /// the ticket.
    pub fn holder_of(&self, ticket: &Ticket, id: &Id) -> Option<Holder>
        ensures { (recs : List SpawnRec) → IsTable ticket.now.rows recs self.now
            → result ≡ table.holder_of ticket.now.rows recs id.now }
    {
        match self.get(id) {
            Some(spawn) => Some(Holder::Spawn(spawn)),
            None => stands(ticket, id).then_some(Holder::Master),
        }
    }

    /// Gives a spawn what it claims, which none holds; all else is held as before. Where memory
    /// runs out all is.
    pub fn take(
        &mut self,
        alloc: Global,
        ticket: &Ticket,
        spawn: &SpawnRec,
    ) -> Result<(), AllocError>
        // Wants: a claim that no spawn holds.
        requires { IsFree (claims ticket.now.rows spawn.now) self.old }
        // Proved: The table that is kept changes by a claim given to its spawn, or given back to
        // the master; only the first may want memory, and then each id is held as before.
        // By `ok`, `err`; `Holders::free`: `given`.
        ensures ok { OnOk result (IsGiven (claims ticket.now.rows spawn.now)
            (Some spawn.now.id) self.old self.new) }
        ensures err { OnErr result (IsSame self.old self.new) }
        ensures valid { IsValid ticket.now.rows }
    {
        let claimed = claim_of(alloc, ticket, spawn)?;
        match self.give_all(alloc, claimed.as_slice(), spawn.id) {
            Ok(()) => Ok(()),
            Err(short) => {
                self.free(ticket, spawn);
                Err(short)
            }
        }
    }

    /// Gives what a spawn claims back to the master; all else is held as before. Needs no memory.
    pub fn free(&mut self, ticket: &Ticket, spawn: &SpawnRec)
        ensures given { IsGiven (claims ticket.now.rows spawn.now) None self.old self.new }
        ensures valid { IsValid ticket.now.rows }
    {
        self.free_rows(&ticket.rows_below(&spawn.node));
        self.free_known(ticket, spawn.rw.as_slice());
    }

    /// Gives a spawn that is out what it claims, where none holds anything of it; and tells whether
    /// that is so.
    fn claim(
        &mut self,
        alloc: Global,
        ticket: &Ticket,
        spawn: &SpawnRec,
    ) -> Result<bool, AllocError>
        ensures apart { (recs : List SpawnRec) → IsTable ticket.now.rows recs self.old
            → stored.are_apart (places ticket.now.rows) recs ≡ true
            → IfOk result (λ b. b
            ≡ stored.are_apart (places ticket.now.rows) (recs ++ spawn.now ∷ [])) }
        ensures table { (recs : List SpawnRec) → IsTable ticket.now.rows recs self.old
            → IfOk result (λ b. b ≡ true
            → IsTable ticket.now.rows (recs ++ spawn.now ∷ []) self.new) }
    {
        if !spawn.is_out() {
            return Ok(true);
        }
        let claimed = claim_of(alloc, ticket, spawn)?;
        if self.has_any(claimed.as_slice()) {
            return Ok(false);
        }
        self.give_all(alloc, claimed.as_slice(), spawn.id)?;
        Ok(true)
    }

    /// Whether a spawn holds one of these ids.
    fn has_any(&self, ids: &[&Id]) -> bool
        ensures { result ≡ list_any (λ x. is_some (holding_spawn self.now x.now)) ids.now }
    {
        ids.iter().any(|id| self.get(id).is_some())
    }

    /// Gives an id to a spawn.
    fn give(&mut self, alloc: Global, id: &Id, spawn: SpawnId) -> Result<(), AllocError>
        ensures ok { OnOk result (IsGiven (bytes_eq id.now) (Some spawn) self.old self.new) }
        ensures err { OnErr result (self.new ≡ self.old) }
    {
        let text = String::from_str(alloc, id.as_str())?;
        self.spawns.insert(text, spawn)?;
        Ok(())
    }

    /// Gives ids to a spawn. Where memory runs out only some of them are given.
    fn give_all(&mut self, alloc: Global, ids: &[&Id], spawn: SpawnId) -> Result<(), AllocError>
        ensures ok { OnOk result (IsGiven (λ x. mem x (map (λ s. s.now) ids.now))
            (Some spawn) self.old self.new) }
        ensures err { OnErr result (OthersStay (λ x. mem x (map (λ s. s.now) ids.now))
            self.old self.new) }
    {
        for id in ids {
            self.give(alloc, id, spawn)?;
        }
        Ok(())
    }

    /// Takes an id from its spawn.
    fn free_id(&mut self, id: &Id)
        ensures { IsGiven (bytes_eq id.now) None self.old self.new }
    {
        self.spawns.remove(id.as_str());
    }

    /// Takes the ids that stand in a ticket from their spawns.
    fn free_known(&mut self, ticket: &Ticket, some: &[Id])
        ensures { IsGiven (λ x. mem x (filter (λ y. mem y (ids ticket.now.rows)) some.now))
            None self.old self.new }
    {
        for id in some {
            if stands(ticket, id) {
                self.free_id(id);
            }
        }
    }

    /// Takes the resources of a pool from their spawns.
    fn free_pool(&mut self, pool: &[Resource])
        ensures { IsGiven (λ x. mem x (resource_ids pool.now)) None self.old self.new }
    {
        for resource in pool {
            self.free_id(&resource.id);
        }
    }

    /// Takes the nodes of rows, and the resources at home there, from their spawns.
    fn free_rows(&mut self, rows: &Rows<'_>)
        ensures { IsGiven (λ x. mem x (ids rows.now)) None self.old self.new }
    {
        for place in 0..rows.len() {
            let row = rows.at(place);
            self.free_id(&row.id);
            self.free_pool(row.resources.as_slice());
        }
    }
}

impl Clone for Holders {
    // Proved: A clone of the table that is kept is equal.
    ghost is_clone = { λ holders copied. copied ≡ holders };

    fn clone(&self) -> Result<Holders, AllocError> {
        let spawns = self.spawns.clone()?;
        Ok(Holders { spawns })
    }
}

impl Duplicate for Holders {
    ghost equal = { λ _ _ same. same };
}
