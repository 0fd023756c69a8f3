ghost use Rattle.std.specs.Prelude.{◌≡◌, codes, Option, option_map, IfOk};
ghost use Rattle.std.specs.Option.{option_copied};
ghost use Rattle.job_list.specs.Work as work;

use crate::work_phase::WorkPhase;
use master_core::Master;
use spawn::SpawnRec;
use std::alloc::{AllocError, Global};
use ticket_items::{Id, Name, NodeRow, SpawnId, Text};
use worker_core::{Entry, Worker};

/// The attribute that names a node for people (JDF 1.5, 3.1.1).
const DESCRIPTIVE_NAME: &str = "DescriptiveName";

/// Work that is shared by two controllers: a spawn of a master, or an entry of a worker; and what
/// is known of its node. A worker knows no more of an entry than its spawn once that is closed or
/// was declined.
#[derive(Drop)]
pub struct Work {
    pub spawn_id: SpawnId,
    pub phase: WorkPhase,
    /// The other of the two: at a master the worker, at a worker the master.
    pub other: Id,
    /// The job, while it is known.
    pub job: Option<Name>,
    /// The node, while it is known.
    pub node: Option<Id>,
    /// The node's DescriptiveName, where it has one.
    pub descriptive_name: Option<Text>,
    /// The node's Status as it is known here: a master's is that of before the spawn.
    pub status: Option<Name>,
    /// Of a spawn when it went out; of an entry when it was taken or declined or, from the end on,
    /// when the work ended; in seconds since 1970.
    pub at: u64,
}

/// The DescriptiveName of a node, if it has one.
pub fn descriptive_name(alloc: Global, row: &NodeRow) -> Result<Option<Text>, AllocError>
    ensures { IfOk result (λ name. name ≡ work.descriptive_name row.now) }
{
    let name = Name::from_valid(alloc, DESCRIPTIVE_NAME)?;
    match row.attrs.get(&name) {
        None => Ok(None),
        Some(text) => Ok(Some(text.clone()?)),
    }
}

/// The DescriptiveName of a node, if there is one and it has one.
fn name_in(alloc: Global, row: Option<&NodeRow>) -> Result<Option<Text>, AllocError>
    ensures { IfOk result (λ name. name ≡ work.name_in (option_copied row.entry)) }
{
    match row {
        None => Ok(None),
        Some(row) => descriptive_name(alloc, row),
    }
}

/// The Status of a node, if there is one.
fn status_in(row: Option<&NodeRow>) -> Result<Option<Name>, AllocError>
    ensures { IfOk result (λ status. status ≡ work.status_in (option_copied row.entry)) }
{
    match row {
        None => Ok(None),
        Some(row) => Ok(Some(row.status.clone()?)),
    }
}

/// The id of a node, if there is one.
fn id_in(row: Option<&NodeRow>) -> Result<Option<Id>, AllocError>
    ensures { IfOk result (λ id. id ≡ work.id_in (option_copied row.entry)) }
{
    match row {
        None => Ok(None),
        Some(row) => Ok(Some(row.id.clone()?)),
    }
}

/// An id that is known, or nothing.
pub fn known_id(id: &Option<Id>) -> &str
    ensures { result.now ≡ work.known_text id.now }
{
    match id {
        None => "",
        Some(id) => id.as_str(),
    }
}

/// A name that is known, or nothing.
pub fn known_name(name: &Option<Name>) -> &str
    ensures { result.now ≡ work.known_text name.now }
{
    match name {
        None => "",
        Some(name) => name.as_str(),
    }
}

/// The job of the part of an entry, while it keeps one.
fn job_in(entry: &Entry) -> Result<Option<Name>, AllocError>
    ensures { IfOk result (λ job. job ≡ work.job_in entry.now) }
{
    match &entry.part {
        None => Ok(None),
        Some(part) => Ok(Some(part.job().clone()?)),
    }
}

/// The node of an entry, while it keeps its part: the first of that.
fn root_of(entry: &Entry) -> Option<&NodeRow>
    ensures { option_copied result ≡ work.root_of entry.now }
{
    match &entry.part {
        None => None,
        Some(part) => part.rows().first(),
    }
}

impl Work {
    ghost use Rattle.std.specs.Prelude.{◌≡◌, IfOk};
    ghost use Rattle.job_list.specs.Work as work;

    /// The work of a master's spawn.
    pub fn of_spawn(alloc: Global, master: &Master, spawn: &SpawnRec) -> Result<Work, AllocError>
        // Proved: The work of a master is each spawn with its node as the ticket has it; of a
        // worker each entry, with the node of the part that it keeps.
        // By `Work::of_entry`.
        ensures { IfOk result (λ w. w ≡ work.work_of_spawn master.now spawn.now) }
    {
        let row = master.ticket().node(&spawn.node);
        Ok(Work {
            spawn_id: spawn.id,
            phase: WorkPhase::Spawn(spawn.phase),
            other: spawn.worker.clone()?,
            job: Some(master.ticket().job().clone()?),
            node: Some(spawn.node.clone()?),
            descriptive_name: name_in(alloc, row)?,
            status: status_in(row)?,
            at: spawn.at,
        })
    }

    /// The work of a worker's entry.
    pub fn of_entry(alloc: Global, worker: &Worker, entry: &Entry) -> Result<Work, AllocError>
        ensures { IfOk result (λ w. w ≡ work.work_of_entry worker.now entry.now) }
    {
        let row = root_of(entry);
        Ok(Work {
            spawn_id: entry.spawn_id,
            phase: WorkPhase::Entry(entry.phase),
            other: worker.master().clone()?,
            job: job_in(entry)?,
            node: id_in(row)?,
            descriptive_name: name_in(alloc, row)?,
            status: status_in(row)?,
            at: entry.at,
        })
    }

    /// Whether a part is still out: the master waits for it, or the worker keeps it.
    pub fn is_open(&self) -> bool
        // Proved: Work tells whether it is open and how far it is, in a word, and what is known of
        // its node.
        // By `WorkPhase::is_open`, `WorkPhase::is_asked`, `WorkPhase::word`, `descriptive_name`,
        // `known_id`, `known_name`.
        ensures { result ≡ work.is_open self.now }
    {
        self.phase.is_open()
    }
}
