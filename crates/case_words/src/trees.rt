//! Rows that are a ticket, or aren't: what no JSON can say.

use std::alloc::Global;
use streams::Refused;
use ticket_tree::{Attrs, Id, Items, Name, NodeRow, Part, Refusal, SpawnId, Ticket};

/// `tree ID:DEPTH:STATUS ..`: whether nodes of these are a ticket.
pub fn tree(alloc: Global, words: &[String]) -> Result<Vec<u8>, Refused> {
    let rows = rows_in(alloc, words)?;
    Ticket::from_rows(alloc, Name::new(alloc, "J1")?, rows)?;
    Ok(Vec::from_slice(alloc, b"Ticket\n")?)
}

/// `part_tree ID:DEPTH:STATUS ..`: whether nodes of these are a part without copies.
pub fn part_tree(alloc: Global, words: &[String]) -> Result<Vec<u8>, Refused> {
    let spawn = SpawnId::new(1)?;
    let job = Name::new(alloc, "J1")?;
    let rows = rows_in(alloc, words)?;
    let above = Items::new(Vec::new(alloc));
    let rw = Items::new(Vec::new(alloc));
    let ro = Items::new(Vec::new(alloc));
    Part::new(alloc, job, spawn, above, rows, rw, ro)?;
    Ok(Vec::from_slice(alloc, b"Part\n")?)
}

fn rows_in(alloc: Global, words: &[String]) -> Result<Vec<NodeRow>, Refusal> {
    let mut rows = Vec::new(alloc);
    for word in words {
        rows.push(row_in(alloc, word.as_str())?)?;
    }
    Ok(rows)
}

/// A node with an id, a depth and a Status, which is `Waiting` where none stands.
fn row_in(alloc: Global, word: &str) -> Result<NodeRow, Refusal> {
    let mut parts = word.split(':');
    let id = parts.next().unwrap_or("");
    let depth = parts.next().unwrap_or("").parse::<u32>().unwrap_or(0);
    row(alloc, id, depth, parts.next().unwrap_or("Waiting"))
}

/// A node of this id, depth and Status.
fn row(alloc: Global, id: &str, depth: u32, status: &str) -> Result<NodeRow, Refusal> {
    let id = Id::new(alloc, id)?;
    let kind = Name::new(alloc, "Product")?;
    let job_part = Name::new(alloc, "p0")?;
    let status = Name::new(alloc, status)?;
    Ok(NodeRow {
        id,
        depth,
        kind,
        job_part,
        status,
        attrs: Attrs::new(alloc),
        resources: Items::new(Vec::new(alloc)),
        links: Items::new(Vec::new(alloc)),
        audits: Items::new(Vec::new(alloc)),
    })
}
