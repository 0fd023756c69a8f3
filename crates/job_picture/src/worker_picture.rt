//! The picture of a worker: what it keeps, and the nodes of that.

ghost use Rattle.std.specs.Prelude.{◌≡◌, ◌++◌, length, map, string_bytes, IfOk, OnOk};
ghost use Rattle.std.specs.List.{filter, flat_map};
ghost use Rattle.job_picture.specs.Rows.{line_of};
ghost use Rattle.job_picture.specs.WorkerPicture as picture;
ghost use Rattle.worker_core.specs.Worker as worker;

use crate::cards::cards_of;
use crate::marks::Marked;
use crate::node_line::NodeLine;
use crate::rows::{copy_words, node_line};
use crate::wall::push_wall;
use job_list::push_entries;
use std::alloc::{AllocError, Global};
use std::collections::BTreeMap;
use ticket_items::{NodeRow, SpawnId, SpawnStatus};
use ticket_tree::Part;
use worker_core::{Entry, Stage, Worker};

/// The spawn through which a worker may change what an entry has: its own while that is open.
fn open_spawn(entry: &Entry) -> Option<SpawnId>
    ensures { result ≡ picture.open_spawn entry.now }
{
    if entry.phase.is_open() {
        Some(entry.spawn_id)
    } else {
        None
    }
}

/// The copies of a part in words, those to change first.
fn part_copies(alloc: Global, part: &Part) -> Result<String, AllocError>
    ensures { IfOk result (λ made. string_bytes made ≡ picture.part_copies part.now) }
{
    let spawn = part.spawn_id();
    let mut text = copy_words(alloc, SpawnStatus::SpawnedRW, spawn, part.rw())?;
    text.push_str(copy_words(alloc, SpawnStatus::SpawnedRO, spawn, part.ro())?.as_str())?;
    Ok(text)
}

/// Puts the line of each node that a spawn holds, or none, behind lines, the first with copies in
/// words.
fn push_rows(
    alloc: Global,
    lines: &mut Vec<NodeLine>,
    held: &Option<SpawnId>,
    mut copies: String,
    rows: &[NodeRow],
) -> Result<(), AllocError>
    ensures { OnOk result (map line_of lines.new.items
        ≡ map line_of lines.old.items
        ++ picture.own_lines held.now (string_bytes copies) rows.now) }
{
    let marked: Marked<'_> = BTreeMap::new(alloc);
    for row in rows {
        lines.push(node_line(alloc, &marked, row, held, copies.as_str())?)?;
        copies = String::new(alloc);
    }
    Ok(())
}

/// Puts the lines of the nodes of a part that is held behind lines, if there is one, the first with
/// its copies.
fn push_part(
    alloc: Global,
    lines: &mut Vec<NodeLine>,
    held: &Option<SpawnId>,
    part: &Option<Part>,
) -> Result<(), AllocError>
    ensures { OnOk result (map line_of lines.new.items
        ≡ map line_of lines.old.items ++ picture.part_lines held.now part.now) }
{
    match part {
        None => Ok(()),
        Some(part) => {
            let copies = part_copies(alloc, part)?;
            push_rows(alloc, lines, held, copies, part.rows())
        }
    }
}

/// The lines of the nodes of entries, while those keep their parts.
fn entries_lines(alloc: Global, entries: &[Entry]) -> Result<Vec<NodeLine>, AllocError>
    ensures { IfOk result (λ lines. map line_of lines.items
        ≡ flat_map picture.entry_lines entries.now) }
{
    let mut lines = Vec::new(alloc);
    for entry in entries {
        push_part(alloc, &mut lines, &open_spawn(entry), &entry.part)?;
    }
    Ok(lines)
}

/// How many entries are closed.
fn count_closed(entries: &[Entry]) -> usize
    ensures { result ≡ length (filter worker.is_closed entries.now) }
{
    let mut count = 0;
    for entry in entries {
        if matches!(entry.phase, Stage::Closed(_)) {
            count += 1;
        }
    }
    count
}

/// How many entries were declined.
fn count_declined(entries: &[Entry]) -> usize
    ensures { result ≡ length (filter worker.is_declined entries.now) }
{
    let mut count = 0;
    for entry in entries {
        if entry.phase.is_declined() {
            count += 1;
        }
    }
    count
}

/// How many entries are closed, and how many were declined.
fn closed_entries(alloc: Global, entries: &[Entry]) -> Result<String, AllocError>
    ensures { IfOk result (λ made. string_bytes made ≡ picture.closed_entries entries.now) }
{
    let closed = count_closed(entries);
    let declined = count_declined(entries);
    format!(in alloc; "{closed} closed, {declined} declined")
}

/// A worker and its master.
fn worker_title(alloc: Global, worker: &Worker) -> Result<String, AllocError>
    ensures { IfOk result (λ made. string_bytes made ≡ picture.worker_title worker.now) }
{
    let name = worker.name().as_str();
    let master = worker.master().as_str();
    format!(in alloc; "Worker {name}, master {master}")
}

/// Appends a picture of a worker as SVG, at a moment in seconds since 1970. What it keeps comes
/// first, a card for each entry, with its node, since when, how long, and the node's Status; then
/// the nodes of those entries. What it gave up or declined is counted. It is 1,920 by 1,080, as
/// `push_wall` says.
pub fn push_worker_picture(
    alloc: Global,
    text: &mut Vec<u8>,
    worker: &Worker,
    now: u64,
) -> Result<(), AllocError>
    // Proved: The picture of a worker has, with the same room, a card for each entry that keeps
    // its part, and a row for each node of that, the first with the part's copies.
    ensures { OnOk result (text.new.items
        ≡ text.old.items ++ picture.worker_picture_of now worker.now) }
{
    let title = worker_title(alloc, worker)?;
    let closed = closed_entries(alloc, worker.entries())?;
    let mut works = Vec::new(alloc);
    push_entries(alloc, &mut works, worker, true)?;
    let cards = cards_of(alloc, now, works.as_slice())?;
    let lines = entries_lines(alloc, worker.entries())?;
    push_wall(
        alloc,
        text,
        now,
        title.as_str(),
        closed.as_str(),
        "Here",
        cards.as_slice(),
        lines,
    )
}
