//! What a controller has out.

ghost use Rattle.std.specs.Prelude.{◌≡◌, IfOk, map};
ghost use Rattle.std.specs.Option.{option_map};
ghost use Rattle.std.specs.List.{filter_map};
ghost use Rattle.stored_state.specs.Outgoing as out;

use crate::any_controller::AnyController;
use spawn::SpawnRec;
use std::alloc::{AllocError, Global};
use ticket_tree::{Id, SpawnId};
use worker_core::{Entry, Stage};

/// What the record of a spawn has out, and to whom.
fn sending_of(spawned: &SpawnRec) -> Option<(SpawnId, &Id)>
    ensures { option_map out.sending_seen result ≡ out.sending_of spawned.now }
{
    if spawned.is_out() {
        Some((spawned.id, &spawned.worker))
    } else {
        None
    }
}

/// What a worker's entry has out, which is for its master.
fn returning_of<'a>(master: &'a Id, entry: &Entry) -> Option<(SpawnId, &'a Id)>
    ensures { option_map out.sending_seen result ≡ out.returning_of master.now entry.now }
{
    match entry.phase {
        Stage::Done(_) => Some((entry.spawn_id, master)),
        Stage::Open | Stage::Closed(_) | Stage::Declined => None,
    }
}

/// What records of spawns have out.
fn sendings_of(alloc: Global, records: &[SpawnRec]) -> Result<Vec<(SpawnId, &Id)>, AllocError>
    ensures { IfOk result (λ all. map out.sending_seen all.items
        ≡ filter_map out.sending_of records.now) }
{
    let mut all = Vec::with_capacity(alloc, records.len())?;
    for spawned in records {
        if let Some(sending) = sending_of(spawned) {
            all.push_reserved(sending);
        }
    }
    Ok(all)
}

/// What a worker's entries have out.
fn returnings_of<'a>(
    alloc: Global,
    master: &'a Id,
    entries: &[Entry],
) -> Result<Vec<(SpawnId, &'a Id)>, AllocError>
    ensures { IfOk result (λ all. map out.sending_seen all.items
        ≡ filter_map (out.returning_of master.now) entries.now) }
{
    let mut all = Vec::with_capacity(alloc, entries.len())?;
    for entry in entries {
        if let Some(returning) = returning_of(master, entry) {
            all.push_reserved(returning);
        }
    }
    Ok(all)
}

impl AnyController {
    /// What it has out, in the order of its spawns or entries: each spawn beside the name of the
    /// controller that is to have its part. A master's is out until it is merged or withdrawn, and
    /// a worker's from the end of the work until its master has it.
    pub fn out(&self, alloc: Global) -> Result<Vec<(SpawnId, &Id)>, AllocError>
        // Proved: What a controller has out is told, in turn, each beside who is to have it: of a
        // master the parts whose spawns are out, of a worker those whose work has ended and that
        // haven't come.
        ensures { IfOk result
            (λ all. map out.sending_seen all.items ≡ out.out_of self.now) }
    {
        match self {
            AnyController::Master(master) => sendings_of(alloc, master.records()),
            AnyController::Worker(worker) => returnings_of(
                alloc,
                worker.master(),
                worker.entries(),
            ),
        }
    }
}
