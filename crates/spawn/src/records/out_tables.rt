//! Tables of what is out, filled spawn by spawn.

ghost use Rattle.std.specs.Prelude.{◌≡◌, ◌++◌, [], ℕ, List, false, map, unwrap_or, IfOk};
ghost use Rattle.std.specs.Prelude.{OnOk};
ghost use Rattle.std.specs.List.{filter, list_any};
ghost use Rattle.std.specs.Str.{bytes_eq};
ghost use Rattle.ticket_items.specs.Ids.{mem};
ghost use Rattle.ticket_items.specs.Resource.{resource_ids};
ghost use Rattle.spawn.specs.IdSet.{IsSetOf};
ghost use Rattle.spawn.specs.Marking as marking;
ghost use Rattle.spawn.specs.OutTables.{if_any, numbers_in, numbers_with};

use crate::claims::id_set::{IdSet, add, add_all};
use crate::records::spawn_rec::SpawnRec;
use std::alloc::{AllocError, Global};
use std::collections::{BTreeMap, BTreeSet};
use ticket_tree::SpawnId;

/// Numbers of spawns under ids of resources.
pub type Numbers<'a> = BTreeMap<&'a str, Vec<SpawnId>>;

/// The records that are out.
pub fn records_out<'a>(
    alloc: Global,
    records: &'a [SpawnRec],
) -> Result<Vec<&'a SpawnRec>, AllocError>
    ensures { IfOk result (λ out. map (λ s. s.now) out.items ≡ marking.records_out records.now) }
{
    let mut out = Vec::new(alloc);
    for spawn in records {
        if spawn.is_out() {
            out.push(spawn)?;
        }
    }
    Ok(out)
}

/// The nodes of these spawns.
pub fn spawned_nodes<'a>(alloc: Global, spawns: &[&'a SpawnRec]) -> Result<IdSet<'a>, AllocError>
    ensures { IfOk result (λ set. IsSetOf
        (λ x. list_any (λ r. bytes_eq r.node x) (map (λ s. s.now) spawns.now)) set) }
{
    let mut nodes = BTreeSet::new(alloc);
    for spawn in spawns {
        add(&mut nodes, &spawn.node)?;
    }
    Ok(nodes)
}

/// The resources of which copies that may be changed went with these spawns.
pub fn copies_rw<'a>(alloc: Global, spawns: &[&'a SpawnRec]) -> Result<IdSet<'a>, AllocError>
    ensures { IfOk result (λ set. IsSetOf
        (λ x. list_any (marking.copies_rw x) (map (λ s. s.now) spawns.now)) set) }
{
    let mut changed = BTreeSet::new(alloc);
    for spawn in spawns {
        add_all(&mut changed, spawn.rw.as_slice())?;
    }
    Ok(changed)
}

/// Takes the numbers that stand under an id out of the table.
fn take_numbers(alloc: Global, numbers: &mut Numbers<'_>, id: &str) -> Vec<SpawnId>
    ensures known { result.items ≡ unwrap_or (numbers_in numbers.old id.now) [] }
    ensures others { (x : List ℕ) → bytes_eq id.now x ≡ false
        → numbers_in numbers.new x ≡ numbers_in numbers.old x }
{
    match numbers.remove(id) {
        None => Vec::new(alloc),
        Some(known) => known,
    }
}

/// Puts a number behind those that stand under an id.
fn push_number<'a>(
    alloc: Global,
    numbers: &mut Numbers<'a>,
    id: &'a str,
    number: SpawnId,
) -> Result<(), AllocError>
    ensures { OnOk result ((x : List ℕ)
        → numbers_in numbers.new x ≡ numbers_with (bytes_eq id.now x) number
        (numbers_in numbers.old x)) }
{
    let mut known = take_numbers(alloc, numbers, id);
    known.push(number)?;
    numbers.insert(id, known)?;
    Ok(())
}

/// Puts a number behind those that stand under each of these ids, under each once.
fn push_under<'a>(
    alloc: Global,
    numbers: &mut Numbers<'a>,
    ids: &[&'a str],
    number: SpawnId,
) -> Result<(), AllocError>
    ensures { OnOk result ((x : List ℕ)
        → numbers_in numbers.new x
        ≡ numbers_with (mem x (map (λ s. s.now) ids.now)) number (numbers_in numbers.old x)) }
{
    let mut seen = BTreeSet::new(alloc);
    for id in ids {
        if seen.insert(*id)? {
            push_number(alloc, numbers, *id, number)?;
        }
    }
    Ok(())
}

/// The ids of the copies that went with a spawn.
fn copied_ids<'a>(alloc: Global, spawn: &'a SpawnRec) -> Result<Vec<&'a str>, AllocError>
    ensures { IfOk result (λ ids. map (λ s. s.now) ids.items
        ≡ spawn.now.rw ++ resource_ids spawn.now.ro) }
{
    let mut ids = Vec::new(alloc);
    for id in spawn.rw.as_slice() {
        ids.push(id.as_str())?;
    }
    for resource in spawn.ro.as_slice() {
        ids.push(resource.id.as_str())?;
    }
    Ok(ids)
}

/// Puts a spawn's number behind those that stand under the ids of its copies, under each once.
fn push_spawn<'a>(
    alloc: Global,
    numbers: &mut Numbers<'a>,
    spawn: &'a SpawnRec,
) -> Result<(), AllocError>
    ensures { OnOk result ((x : List ℕ)
        → numbers_in numbers.new x
        ≡ numbers_with (marking.copies x spawn.now) spawn.now.id (numbers_in numbers.old x)) }
{
    let ids = copied_ids(alloc, spawn)?;
    push_under(alloc, numbers, ids.as_slice(), spawn.id)
}

/// The numbers of these spawns under the ids of their copies, in the order of the spawns.
pub fn numbers_of<'a>(alloc: Global, spawns: &[&'a SpawnRec]) -> Result<Numbers<'a>, AllocError>
    ensures { IfOk result (λ numbers. (x : List ℕ)
        → numbers_in numbers x
        ≡ if_any (map (λ r. r.id) (filter (marking.copies x) (map (λ s. s.now) spawns.now)))) }
{
    let mut numbers = BTreeMap::new(alloc);
    for spawn in spawns {
        push_spawn(alloc, &mut numbers, spawn)?;
    }
    Ok(numbers)
}
