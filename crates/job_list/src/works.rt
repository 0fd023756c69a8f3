//! The work of a master and of a worker: what is open, and what isn't.

ghost use Rattle.std.specs.Prelude.{◌≡◌, ◌++◌, OnOk};
ghost use Rattle.job_list.specs.Work as work;

use crate::work::Work;
use crate::work_phase::WorkPhase;
use master_core::Master;
use std::alloc::{AllocError, Global};
use worker_core::Worker;

/// Puts the work of a master behind other: that which is open, or all other; each spawn once, in
/// the order in which they went out.
pub fn push_spawns(
    alloc: Global,
    works: &mut Vec<Work>,
    master: &Master,
    are_open: bool,
) -> Result<(), AllocError>
    // Proved: What is open is listed, or all others; between them they have each spawn, and each
    // entry, once.
    // By `push_entries`; `laws::each_work_stands_once`: `spawns`, `entries`.
    ensures { OnOk result (works.new.items
        ≡ works.old.items ++ work.works_of_master are_open master.now) }
{
    let records = master.records();
    for spawn in records {
        if WorkPhase::Spawn(spawn.phase).is_asked(are_open) {
            works.push(Work::of_spawn(alloc, master, spawn)?)?;
        }
    }
    Ok(())
}

/// The same of a worker; each entry once, in the order in which they were taken or declined.
pub fn push_entries(
    alloc: Global,
    works: &mut Vec<Work>,
    worker: &Worker,
    are_open: bool,
) -> Result<(), AllocError>
    ensures { OnOk result (works.new.items
        ≡ works.old.items ++ work.works_of_worker are_open worker.now) }
{
    let entries = worker.entries();
    for entry in entries {
        if WorkPhase::Entry(entry.phase).is_asked(are_open) {
            works.push(Work::of_entry(alloc, worker, entry)?)?;
        }
    }
    Ok(())
}
