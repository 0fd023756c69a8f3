//! The picture of a master: what is out, and its ticket with who holds what.

ghost use Rattle.std.specs.Prelude.{◌≡◌, ◌++◌, length, map, string_bytes, IfOk, OnOk};
ghost use Rattle.std.specs.List.{filter};
ghost use Rattle.job_picture.specs.Marked.{mark_in};
ghost use Rattle.job_picture.specs.Picture as picture;
ghost use Rattle.job_picture.specs.Rows.{line_of};

use crate::cards::cards_of;
use crate::marks::{Marked, marked_by_id};
use crate::node_line::NodeLine;
use crate::rows::node_line;
use crate::wall::push_wall;
use job_list::push_spawns;
use master_core::Master;
use spawn::{Holder, Phase, SpawnRec};
use std::alloc::{AllocError, Global};
use ticket_items::{Id, SpawnId};
use ticket_tree::Rows;

/// The spawn that a holder is, if it is one.
fn spawn_in(holder: Holder) -> Option<SpawnId>
    ensures { result ≡ picture.spawn_in holder }
{
    match holder {
        Holder::Master => None,
        Holder::Spawn(spawn) => Some(spawn),
    }
}

/// The spawn that holds an id, if one does.
#[tactic(auto, unfolding(crate::specs::Picture::spawn_at))]
fn spawn_at(master: &Master, id: &Id) -> Option<SpawnId>
    ensures { result ≡ picture.spawn_at master.now id.now }
{
    spawn_in(master.holder_of(id)?)
}

/// The line of each node, by the marks of resources.
fn held_lines(
    alloc: Global,
    master: &Master,
    marked: &Marked<'_>,
    rows: &Rows<'_>,
) -> Result<Vec<NodeLine>, AllocError>
    ensures { IfOk result (λ lines. map line_of lines.items
        ≡ map (picture.held_line master.now (mark_in marked.now)) rows.now) }
{
    let mut lines = Vec::new(alloc);
    for place in 0..rows.len() {
        let row = rows.at(place);
        lines.push(node_line(alloc, marked, row, &spawn_at(master, &row.id), "")?)?;
    }
    Ok(lines)
}

/// The lines of the ticket, in ticket order.
fn ticket_lines(alloc: Global, master: &Master) -> Result<Vec<NodeLine>, AllocError>
    ensures { IfOk result (λ lines. map line_of lines.items ≡ picture.ticket_lines master.now) }
{
    // It refuses for want of memory alone.
    let Ok(marks) = master.shown(alloc) else {
        return Err(AllocError);
    };
    let marked = marked_by_id(alloc, marks.resources.as_slice())?;
    held_lines(alloc, master, &marked, &master.ticket().rows())
}

/// How many spawns were merged.
fn count_merged(spawns: &[SpawnRec]) -> usize
    ensures { result ≡ length (filter picture.is_merged spawns.now) }
{
    let mut count = 0;
    for spawn in spawns {
        if matches!(spawn.phase, Phase::Merged) {
            count += 1;
        }
    }
    count
}

/// How many spawns were withdrawn.
fn count_withdrawn(spawns: &[SpawnRec]) -> usize
    ensures { result ≡ length (filter picture.is_withdrawn spawns.now) }
{
    let mut count = 0;
    for spawn in spawns {
        if matches!(spawn.phase, Phase::Withdrawn) {
            count += 1;
        }
    }
    count
}

/// How many spawns came back, and how many were withdrawn.
fn closed_spawns(alloc: Global, spawns: &[SpawnRec]) -> Result<String, AllocError>
    ensures { IfOk result (λ made. string_bytes made ≡ picture.closed_spawns spawns.now) }
{
    let merged = count_merged(spawns);
    let withdrawn = count_withdrawn(spawns);
    format!(in alloc; "{merged} came back, {withdrawn} withdrawn")
}

/// The job and its master.
fn title_of(alloc: Global, master: &Master) -> Result<String, AllocError>
    ensures { IfOk result (λ made. string_bytes made ≡ picture.title_of master.now) }
{
    let job = master.ticket().job().as_str();
    let name = master.name().as_str();
    format!(in alloc; "Job {job}, master {name}")
}

/// Appends a picture of a master's job as SVG, text that a browser shows, at a moment in seconds
/// since 1970. What is out comes first, a card for each spawn, with its worker, its node, since
/// when, how long, and the node's Status; then the nodes in ticket order, each with a shape for how
/// far it is, the spawn that holds it, and its resources. It is 1,920 by 1,080, as `push_wall`
/// says.
pub fn push_picture(
    alloc: Global,
    text: &mut Vec<u8>,
    master: &Master,
    now: u64,
) -> Result<(), AllocError>
    // Proved: The picture of a master has a card for each of its spawns that is out, and a row for
    // each node, with who holds it by the table of holders and its resources by the marks that it
    // shows. What has no room is left out and counted: cards behind the 24th, nodes that are
    // completed or aborted, and then the last. Work that is closed is counted.
    ensures { OnOk result (text.new.items
        ≡ text.old.items ++ picture.picture_of now master.now) }
{
    let title = title_of(alloc, master)?;
    let closed = closed_spawns(alloc, master.records())?;
    let mut works = Vec::new(alloc);
    push_spawns(alloc, &mut works, master, true)?;
    let cards = cards_of(alloc, now, works.as_slice())?;
    let lines = ticket_lines(alloc, master)?;
    push_wall(
        alloc,
        text,
        now,
        title.as_str(),
        closed.as_str(),
        "Out",
        cards.as_slice(),
        lines,
    )
}
