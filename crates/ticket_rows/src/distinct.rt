//! Whether each id of a ticket stands once, over nodes and resources alike.

ghost use Rattle.std.specs.Prelude.{◌≡◌, ◌++◌, map, IfOk, OnOk};
ghost use Rattle.ticket_items.specs.Ids as id_lists;
ghost use Rattle.ticket_items.specs.Resource.{resource_ids};
ghost use Rattle.ticket_rows.specs.Copies.{with_copies};
ghost use Rattle.ticket_rows.specs.Ticket.{ids_of};
ghost use Rattle.ticket_rows.specs.Ticket as valid;

use std::alloc::{AllocError, Global};
use std::collections::BTreeSet;
use ticket_items::{NodeRow, Resource};

/// Appends the ids of the resources of a pool.
fn push_pool<'a>(ids: &mut Vec<&'a str>, pool: &'a [Resource]) -> Result<(), AllocError>
    ensures { OnOk result (map (λ s. s.now) ids.new.items
        ≡ map (λ s. s.now) ids.old.items ++ resource_ids pool.now) }
{
    for resource in pool {
        ids.push(resource.id.as_str())?;
    }
    Ok(())
}

/// Appends the id of a node, and those of the resources of its pool.
fn push_ids<'a>(ids: &mut Vec<&'a str>, row: &'a NodeRow) -> Result<(), AllocError>
    ensures { OnOk result (map (λ s. s.now) ids.new.items
        ≡ map (λ s. s.now) ids.old.items ++ ids_of row.now) }
{
    ids.push(row.id.as_str())?;
    push_pool(ids, row.resources.as_slice())
}

/// Appends the ids of nodes and of the resources of their pools.
fn push_rows<'a>(ids: &mut Vec<&'a str>, rows: &'a [NodeRow]) -> Result<(), AllocError>
    ensures { OnOk result (map (λ s. s.now) ids.new.items
        ≡ map (λ s. s.now) ids.old.items ++ valid.ids rows.now) }
{
    for row in rows {
        push_ids(ids, row)?;
    }
    Ok(())
}

/// The ids of all nodes and resources, in ticket order, with copies as resources of the root.
fn all_ids<'a>(
    alloc: Global,
    rows: &'a [NodeRow],
    rw: &'a [Resource],
    ro: &'a [Resource],
) -> Result<Vec<&'a str>, AllocError>
    ensures { IfOk result (λ all. map (λ s. s.now) all.items
        ≡ valid.ids (with_copies rows.now rw.now ro.now)) }
{
    let mut all = Vec::with_capacity(alloc, rows.len())?;
    let Some((root, later)) = rows.split_first() else {
        return Ok(all);
    };
    push_ids(&mut all, root)?;
    push_pool(&mut all, rw)?;
    push_pool(&mut all, ro)?;
    push_rows(&mut all, later)?;
    Ok(all)
}

/// Whether no text stands twice.
fn are_apart(alloc: Global, texts: &[&str]) -> Result<bool, AllocError>
    ensures { IfOk result (λ apart. apart ≡ id_lists.are_distinct (map (λ s. s.now) texts.now)) }
{
    let mut seen = BTreeSet::new(alloc);
    for text in texts {
        if !seen.insert(*text)? {
            return Ok(false);
        }
    }
    Ok(true)
}

/// Whether no id stands twice, with copies as resources of the root.
pub fn are_distinct_with(
    alloc: Global,
    rows: &[NodeRow],
    rw: &[Resource],
    ro: &[Resource],
) -> Result<bool, AllocError>
    // Proved: Whether the rows of a part are of distinct ids with its copies, and their links
    // resolved, is told.
    // By `are_resolved_with`.
    ensures { IfOk result (λ distinct. distinct
        ≡ id_lists.are_distinct (valid.ids (with_copies rows.now rw.now ro.now))) }
{
    let all = all_ids(alloc, rows, rw, ro)?;
    are_apart(alloc, all.as_slice())
}
