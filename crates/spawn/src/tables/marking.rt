//! What a ticket shows of the spawns that are out.

ghost use Rattle.std.specs.Prelude.{◌≡◌, ◌++◌, ℕ, List, map, IfErr, IfOk, OnOk};
ghost use Rattle.std.specs.List.{filter, filter_map, list_any};
ghost use Rattle.ticket_items.specs.Resource.{resource_ids};
ghost use Rattle.ticket_rows.specs.Ticket.{node_ids};
ghost use Rattle.spawn.specs.IdSet.{IsSetOf, is_in};
ghost use Rattle.spawn.specs.Marking as marking;
ghost use Rattle.spawn.specs.OutTables.{numbers_in, if_any, mark_in};
ghost use Rattle.spawn.specs.Parts.{resources};

use crate::claims::id_set::{IdSet, has};
use crate::records::out_tables::{Numbers, copies_rw, numbers_of, records_out, spawned_nodes};
use crate::records::spawn_rec::SpawnRec;
use std::alloc::{AllocError, Global};
use ticket_tree::{
    Duplicate, Id, Items, Marks, Refusal, ResMark, Resource, Rows, SpawnId, SpawnIds, SpawnStatus,
    Ticket,
};

/// The copies that are out: the ids of those that may be changed, and the spawns with which each
/// went.
#[derive(Drop)]
struct Copies<'a> {
    changed: IdSet<'a>,
    numbers: Numbers<'a>,
}

/// The copies that went with these spawns.
fn copies_of<'a>(alloc: Global, spawns: &[&'a SpawnRec]) -> Result<Copies<'a>, AllocError>
    ensures changed { IfOk result (λ c. IsSetOf
        (λ x. list_any (marking.copies_rw x) (map (λ s. s.now) spawns.now)) c.changed) }
    ensures numbers { IfOk result (λ c. (x : List ℕ)
        → numbers_in c.numbers x
        ≡ if_any (map (λ r. r.id) (filter (marking.copies x) (map (λ s. s.now) spawns.now)))) }
{
    let changed = copies_rw(alloc, spawns)?;
    let numbers = numbers_of(alloc, spawns)?;
    Ok(Copies { changed, numbers })
}

/// The numbers in rising order.
fn in_order(alloc: Global, numbers: &[SpawnId]) -> Result<SpawnIds, AllocError>
    ensures { IfOk result (λ ordered. ordered ≡ marking.in_order numbers.now) }
{
    let mut ordered = Vec::with_capacity(alloc, numbers.len())?;
    for number in numbers {
        ordered.push(*number)?;
    }
    ordered.as_mut_slice().sort_unstable();
    Ok(Items::new(ordered))
}

/// What a resource shows, if a copy of it is out.
fn mark_of(alloc: Global, copies: &Copies<'_>, id: &Id) -> Result<Option<ResMark>, AllocError>
    ensures { IfOk result (λ mark. mark ≡ mark_in copies.now.changed copies.now.numbers id.now) }
{
    let Some(numbers) = copies.numbers.get(id.as_str()) else {
        return Ok(None);
    };
    let status = if has(&copies.changed, id) {
        SpawnStatus::SpawnedRW
    } else {
        SpawnStatus::SpawnedRO
    };
    Ok(Some(ResMark {
        id: id.copy(alloc)?,
        status,
        spawn_ids: in_order(alloc, numbers.as_slice())?,
    }))
}

/// Adds what the resources of a pool show.
fn push_marks(
    alloc: Global,
    marks: &mut Vec<ResMark>,
    copies: &Copies<'_>,
    pool: &[Resource],
) -> Result<(), AllocError>
    ensures { OnOk result (marks.new.items
        ≡ marks.old.items
        ++ filter_map (mark_in copies.now.changed copies.now.numbers) (resource_ids pool.now)) }
{
    for resource in pool {
        if let Some(mark) = mark_of(alloc, copies, &resource.id)? {
            marks.push(mark)?;
        }
    }
    Ok(())
}

/// What the resources of the rows show.
fn marked_resources(
    alloc: Global,
    rows: &Rows<'_>,
    copies: &Copies<'_>,
) -> Result<Vec<ResMark>, AllocError>
    ensures { IfOk result (λ marks. marks.items
        ≡ filter_map (mark_in copies.now.changed copies.now.numbers)
        (resource_ids (resources rows.now))) }
{
    let mut marks = Vec::new(alloc);
    for place in 0..rows.len() {
        let row = rows.at(place);
        push_marks(alloc, &mut marks, copies, row.resources.as_slice())?;
    }
    Ok(marks)
}

/// The nodes of the rows that were spawned.
fn marked_nodes(alloc: Global, rows: &Rows<'_>, spawned: &IdSet<'_>) -> Result<Vec<Id>, AllocError>
    ensures { IfOk result (λ nodes. nodes.items ≡ filter (is_in spawned.now) (node_ids rows.now)) }
{
    let mut nodes = Vec::new(alloc);
    for place in 0..rows.len() {
        let row = rows.at(place);
        if has(spawned, &row.id) {
            nodes.push(row.id.copy(alloc)?)?;
        }
    }
    Ok(nodes)
}

/// What a ticket shows of the spawns that are out (JDF 1.5, 4.4): the nodes that were spawned, and
/// for each resource of which copies are out whether one may be changed, and the numbers of their
/// spawns in rising order, each as often as records tell of it. All in ticket order. Refuses
/// `Memory` alone.
pub fn marked(alloc: Global, ticket: &Ticket, records: &[SpawnRec]) -> Result<Marks, Refusal>
    // Proved: Marks are those of spawns that are out.
    // By `ok`, `memory`; `SpawnRec::is_out`.
    ensures ok { IfOk result (λ m. m ≡ marking.marks ticket.now.rows records.now) }
    ensures memory { IfErr result (λ e. e ≡ Refusal.Memory) }
{
    let out = records_out(alloc, records)?;
    let spawned = spawned_nodes(alloc, out.as_slice())?;
    let copies = copies_of(alloc, out.as_slice())?;
    let rows = ticket.rows();
    let nodes = marked_nodes(alloc, &rows, &spawned)?;
    let resources = marked_resources(alloc, &rows, &copies)?;
    Ok(Marks {
        nodes: Items::new(nodes),
        resources: Items::new(resources),
    })
}
