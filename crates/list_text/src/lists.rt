//! The lines of a controller.

ghost use Rattle.std.specs.Prelude.{◌≡◌, ◌++◌, true, OnOk};
ghost use Rattle.spawn.specs.Records.{IsGood, is_out};
ghost use Rattle.list_text.specs.Lists as lists;

use crate::json_line::json_line;
use crate::sizes::{entry_size, spawn_size};
use crate::tab_line::tab_line;
use job_list::{Work, WorkPhase};
use master_core::Master;
use spawn::SpawnRec;
use std::alloc::{AllocError, Global};
use ticket_items::Id;
use worker_core::{Entry, Worker};

/// Appends the line of a controller's work at a time, whose message has so many bytes if there is
/// one: as JSON, or with tabs between.
#[tactic(auto, unfolding(crate::specs::Lists::line))]
fn push_line(
    alloc: Global,
    text: &mut Vec<u8>,
    is_json: bool,
    controller: &Id,
    work: &Work,
    bytes: Option<u64>,
    now: u64,
) -> Result<(), AllocError>
    ensures { OnOk result (text.new.items
        ≡ text.old.items ++ lists.line is_json now controller.now bytes work.now) }
{
    if is_json {
        return text.extend_from_slice(json_line(alloc, controller, work, bytes, now)?.as_slice());
    }
    let line = tab_line(alloc, controller.as_str(), work, bytes, now)?;
    text.extend_from_slice(line.as_bytes())
}

/// Appends the line of a master's spawn.
fn push_spawn_line(
    alloc: Global,
    text: &mut Vec<u8>,
    master: &Master,
    spawn: &SpawnRec,
    is_json: bool,
    now: u64,
) -> Result<(), AllocError>
    requires { is_out spawn.now ≡ true → IsGood master.now.ticket.rows spawn.now }
    ensures { OnOk result (text.new.items
        ≡ text.old.items ++ lists.spawn_line is_json now master.now spawn.now) }
{
    let work = Work::of_spawn(alloc, master, spawn)?;
    let bytes = spawn_size(alloc, master, spawn)?;
    push_line(alloc, text, is_json, master.name(), &work, bytes, now)
}

/// Appends the line of a worker's entry.
fn push_entry_line(
    alloc: Global,
    text: &mut Vec<u8>,
    worker: &Worker,
    entry: &Entry,
    is_json: bool,
    now: u64,
) -> Result<(), AllocError>
    ensures { OnOk result (text.new.items
        ≡ text.old.items ++ lists.entry_line is_json now worker.now entry.now) }
{
    let work = Work::of_entry(alloc, worker, entry)?;
    let bytes = entry_size(alloc, worker, entry)?;
    push_line(alloc, text, is_json, worker.name(), &work, bytes, now)
}

/// Appends the lines of a master's spawns that are open, or of all others, at a time in seconds
/// since 1970, in the order in which they went out: each as JSON, or with tabs between.
pub fn push_master_list(
    alloc: Global,
    text: &mut Vec<u8>,
    master: &Master,
    are_open: bool,
    is_json: bool,
    now: u64,
) -> Result<(), AllocError>
    // Proved: A list of a controller's work, of what is open or of all other, has a line for each,
    // with the bytes of the message that carries its part, with tabs between or as JSON.
    // By `push_worker_list`.
    ensures { OnOk result (text.new.items
        ≡ text.old.items ++ lists.master_list are_open is_json now master.now) }
{
    let records = master.records();
    for spawn in records {
        if WorkPhase::Spawn(spawn.phase).is_asked(are_open) {
            push_spawn_line(alloc, text, master, spawn, is_json, now)?;
        }
    }
    Ok(())
}

/// Appends the lines of a worker's entries that are open, or of all others, at a time in seconds
/// since 1970, in the order in which they were taken or declined: each as JSON, or with tabs
/// between.
pub fn push_worker_list(
    alloc: Global,
    text: &mut Vec<u8>,
    worker: &Worker,
    are_open: bool,
    is_json: bool,
    now: u64,
) -> Result<(), AllocError>
    ensures { OnOk result (text.new.items
        ≡ text.old.items ++ lists.worker_list are_open is_json now worker.now) }
{
    let entries = worker.entries();
    for entry in entries {
        if WorkPhase::Entry(entry.phase).is_asked(are_open) {
            push_entry_line(alloc, text, worker, entry, is_json, now)?;
        }
    }
    Ok(())
}
