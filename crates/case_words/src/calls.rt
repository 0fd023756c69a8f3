//! Calls of libraries that no command makes.

use crate::forms::{line, line_of};
use json_profile::{part_of, part_value, ticket_of, ticket_value, value_of};
use merge::merge;
use spawn::{Holder, Holders, SpawnRec, is_good, spawn};
use std::alloc::{AllocError, Global};
use std::str::from_utf8;
use streams::Refused;
use ticket_tree::{Duplicate, Edit, Id, Ids, Items, Name, NodeRow, Part, Refusal, Text, Ticket};
use world::World;

/// What comes of a word with others behind it; none of any other.
pub fn called(
    alloc: Global,
    word: &str,
    words: &[String],
    input: &[u8],
) -> Option<Result<Vec<u8>, Refused>> {
    match (word, words) {
        ("edited_copy", [node, status]) => {
            Some(edited_copy(alloc, node.as_str(), status.as_str(), input))
        }
        ("shop", [master, workers @ ..]) => Some(shop(alloc, master.as_str(), workers, input)),
        ("spawned", [number, node, rw @ ..]) => {
            Some(spawned(alloc, number.as_str(), node.as_str(), rw, input))
        }
        ("part_rows", [depth]) => Some(part_rows(alloc, depth.as_str(), input)),
        ("held", [node, id]) => Some(held(alloc, node.as_str(), id.as_str(), input)),
        _ => None,
    }
}

/// `new_text`: the text that is read.
pub fn new_text(alloc: Global, text: &[u8]) -> Result<Vec<u8>, Refused> {
    let text = Text::new(alloc, from_utf8(text).unwrap_or(""))?;
    Ok(line(Vec::from_slice(alloc, text.as_str().as_bytes())?)?)
}

/// The ids that words are.
pub fn ids_of(alloc: Global, words: &[String]) -> Result<Ids, Refusal> {
    let mut ids = Vec::new(alloc);
    for word in words {
        ids.push(Id::new(alloc, word.as_str())?)?;
    }
    Ok(Items::new(ids))
}

/// The ticket that is read.
fn ticket_in(alloc: Global, text: &[u8]) -> Result<Ticket, Refusal> {
    ticket_of(alloc, &value_of(alloc, text)?)
}

/// The part that is read.
fn part_in(alloc: Global, text: &[u8]) -> Result<Part, Refusal> {
    part_of(alloc, &value_of(alloc, text)?)
}

/// The line of a ticket.
fn ticket_line(alloc: Global, ticket: &Ticket) -> Result<Vec<u8>, AllocError> {
    line_of(alloc, &ticket_value(alloc, ticket)?)
}

/// The line of a part.
fn part_line(alloc: Global, part: &Part) -> Result<Vec<u8>, AllocError> {
    line_of(alloc, &part_value(alloc, part)?)
}

/// Both lines, in turn.
fn joined(mut first: Vec<u8>, second: Vec<u8>) -> Result<Vec<u8>, AllocError> {
    first.extend_from_slice(second.as_slice())?;
    Ok(first)
}

/// A new Status of a node.
fn set_status(alloc: Global, node: &str, status: &str) -> Result<Edit, Refusal> {
    let node = Id::new(alloc, node)?;
    let status = Name::new(alloc, status)?;
    Ok(Edit::SetStatus { node, status })
}

/// `edited_copy NODE STATUS`: the ticket that is read, and a copy of it in which a node has another
/// Status.
fn edited_copy(alloc: Global, node: &str, status: &str, text: &[u8]) -> Result<Vec<u8>, Refused> {
    let ticket = ticket_in(alloc, text)?;
    let copied = line_of_copy(alloc, &ticket, node, status)?;
    Ok(joined(ticket_line(alloc, &ticket)?, copied)?)
}

/// The line of a copy of a ticket, in which a node has another Status.
fn line_of_copy(
    alloc: Global,
    ticket: &Ticket,
    node: &str,
    status: &str,
) -> Result<Vec<u8>, Refusal> {
    let edit = set_status(alloc, node, status)?;
    let mut copy = ticket.copy(alloc)?;
    copy.apply(alloc, edit, 5)?;
    Ok(ticket_line(alloc, &copy)?)
}

/// `shop MASTER WORKER ..`: whether controllers of these names may share the ticket that is read.
fn shop(alloc: Global, master: &str, workers: &[String], text: &[u8]) -> Result<Vec<u8>, Refused> {
    let ticket = ticket_in(alloc, text)?;
    let workers = ids_of(alloc, workers)?;
    World::new(alloc, Id::new(alloc, master)?, workers, ticket)?;
    Ok(Vec::from_slice(alloc, b"Shop\n")?)
}

/// `spawned NUMBER NODE RW ..`: the part of a spawn of the ticket that is read, to press at 100;
/// and the ticket once the part came back with the Status `InProgress` and was merged, at 200.
fn spawned(
    alloc: Global,
    number: &str,
    node: &str,
    rw: &[String],
    text: &[u8],
) -> Result<Vec<u8>, Refused> {
    let mut ticket = ticket_in(alloc, text)?;
    let mut records = Vec::new(alloc);
    let part = spawn_to_press(alloc, &mut ticket, &mut records, number, node, rw)?;
    Ok(lines_of_merge(alloc, &mut ticket, records.as_mut_slice(), part, node)?)
}

/// Spawns a node of a ticket.
fn spawn_to_press(
    alloc: Global,
    ticket: &mut Ticket,
    records: &mut Vec<SpawnRec>,
    number: &str,
    node: &str,
    rw: &[String],
) -> Result<Part, Refusal> {
    let node = Id::new(alloc, node)?;
    let worker = Id::new(alloc, "press")?;
    let rw = ids_of(alloc, rw)?;
    let number = number.parse::<u32>().unwrap_or(0);
    let (_, part) = spawn(alloc, ticket, records, number, node, worker, rw, 100)?;
    Ok(part)
}

/// The line of a part, and that of its ticket once it was changed and merged.
fn lines_of_merge(
    alloc: Global,
    ticket: &mut Ticket,
    records: &mut [SpawnRec],
    part: Part,
    node: &str,
) -> Result<Vec<u8>, Refusal> {
    let line = part_line(alloc, &part)?;
    let changed = changed_part(alloc, part, node)?;
    merge_back(alloc, ticket, records, changed)?;
    Ok(joined(line, ticket_line(alloc, ticket)?)?)
}

/// A part in which a node has the Status `InProgress`.
fn changed_part(alloc: Global, mut part: Part, node: &str) -> Result<Part, Refusal> {
    let node = Id::new(alloc, node)?;
    let status = Name::new(alloc, "InProgress")?;
    part.apply(alloc, Edit::SetStatus { node, status }, 150)?;
    Ok(part)
}

/// Merges a part into the ticket.
fn merge_back(
    alloc: Global,
    ticket: &mut Ticket,
    records: &mut [SpawnRec],
    part: Part,
) -> Result<(), Refusal> {
    match records {
        [record] if record.is_out() && is_good(ticket, record) => {
            merge(alloc, ticket, record, part, 200)
        }
        _ => Err(Refusal::UnknownSpawn),
    }
}

/// `part_rows N`: a part of the rows and copies of the one that is read, and of its first row once
/// more at a depth, unless that is 0.
fn part_rows(alloc: Global, depth: &str, text: &[u8]) -> Result<Vec<u8>, Refused> {
    let part = part_in(alloc, text)?;
    let made = part_with(alloc, &part, depth.parse::<u32>().unwrap_or(0))?;
    Ok(part_line(alloc, &made)?)
}

/// The part of what a part has, with its first row once more at a depth, unless that is 0.
fn part_with(alloc: Global, part: &Part, depth: u32) -> Result<Part, Refusal> {
    let rows = rows_with(alloc, part.rows(), depth)?;
    let job = part.job().copy(alloc)?;
    let above = copies_of(alloc, part.ancestors())?;
    let rw = copies_of(alloc, part.rw())?;
    let ro = copies_of(alloc, part.ro())?;
    Part::new(alloc, job, part.spawn_id(), above, rows, rw, ro)
}

/// Copies of a list.
pub fn copies_of<T: Duplicate>(alloc: Global, list: &[T]) -> Result<Items<T>, AllocError> {
    let mut copies = Vec::new(alloc);
    for item in list {
        copies.push(item.copy(alloc)?)?;
    }
    Ok(Items::new(copies))
}

/// Copies of rows, with the first once more at a depth, unless that is 0.
fn rows_with(alloc: Global, rows: &[NodeRow], depth: u32) -> Result<Vec<NodeRow>, AllocError> {
    let mut copies = copies_of(alloc, rows)?.into_vec();
    if depth > 0 {
        for first in rows.iter().take(1) {
            let mut again = first.copy(alloc)?;
            again.depth = depth;
            copies.push(again)?;
        }
    }
    Ok(copies)
}

/// `held NODE ID`: who holds an id of the ticket that is read, once a node of it is spawned to
/// press; once the spawn gives back what it claims; and by a copy of the holders that was made
/// before.
fn held(alloc: Global, node: &str, id: &str, text: &[u8]) -> Result<Vec<u8>, Refused> {
    let mut ticket = ticket_in(alloc, text)?;
    let mut records = Vec::new(alloc);
    drop(spawn_to_press(alloc, &mut ticket, &mut records, "1", node, &[])?);
    let id = Id::new(alloc, id)?;
    Ok(holder_words(alloc, &ticket, records.as_slice(), &id)?)
}

/// The words of `held`, of a ticket and these records.
fn holder_words(
    alloc: Global,
    ticket: &Ticket,
    records: &[SpawnRec],
    id: &Id,
) -> Result<Vec<u8>, Refusal> {
    let Some(mut holders) = Holders::of(alloc, ticket, records)? else {
        return Err(Refusal::BadState);
    };
    let copy = holders.copy(alloc)?;
    let spawned = holder_word(&holders, ticket, id);
    for record in records {
        holders.free(ticket, record);
    }
    let freed = holder_word(&holders, ticket, id);
    let copied = holder_word(&copy, ticket, id);
    Ok(format!(in alloc; "{spawned} {freed} {copied}\n")?.into_bytes())
}

/// The word for who holds an id.
fn holder_word(holders: &Holders, ticket: &Ticket, id: &Id) -> &'static str {
    match holders.holder_of(ticket, id) {
        None => "None",
        Some(Holder::Master) => "Master",
        Some(Holder::Spawn(_)) => "Spawn",
    }
}
