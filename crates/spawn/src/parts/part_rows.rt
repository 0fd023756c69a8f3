//! The rows and the resources of a part, copied out of a ticket.

ghost use Rattle.std.specs.Prelude.{◌≡◌, ◌++◌, map, option_to_list, IfOk, OnOk};
ghost use Rattle.std.specs.List.{flat_map};
ghost use Rattle.std.specs.Option.{option_copied};
ghost use Rattle.ticket_rows.specs.Homes.{resource_of};
ghost use Rattle.ticket_rows.specs.Ticket.{IsValid};
ghost use Rattle.spawn.specs.Parts as parts;
ghost use Rattle.spawn.specs.Records.{IsGood};

use crate::records::spawn_rec::SpawnRec;
use std::alloc::{AllocError, Global};
use ticket_tree::{Duplicate, Id, NodeRow, Resource, Rows, Ticket};

/// A row, so many levels higher.
fn lifted_row(alloc: Global, row: &NodeRow, levels: u32) -> Result<NodeRow, AllocError>
    ensures { IfOk result (λ r. r ≡ parts.lifted_row levels row.now) }
{
    let mut copy = row.copy(alloc)?;
    copy.depth = copy.depth.saturating_sub(levels);
    Ok(copy)
}

/// The rows, each so many levels higher.
pub fn lifted_rows(alloc: Global, rows: &Rows<'_>, levels: u32) -> Result<Vec<NodeRow>, AllocError>
    ensures { IfOk result (λ v. v.items ≡ map (parts.lifted_row levels) rows.now) }
{
    let mut lifted = Vec::with_capacity(alloc, rows.len())?;
    for place in 0..rows.len() {
        let row = rows.at(place);
        lifted.push(lifted_row(alloc, row, levels)?)?;
    }
    Ok(lifted)
}

/// Adds a copy of a resource, if there is one.
fn push_copy(
    alloc: Global,
    found: &mut Vec<Resource>,
    resource: Option<&Resource>,
) -> Result<(), AllocError>
    ensures { OnOk result (found.new.items
        ≡ found.old.items ++ option_to_list (option_copied resource.entry)) }
{
    if let Some(resource) = resource {
        found.push(resource.copy(alloc)?)?;
    }
    Ok(())
}

/// Copies of the resources of these ids, one after another. Of an id that no resource has there is
/// none.
fn resources_of(alloc: Global, ticket: &Ticket, ids: &[Id]) -> Result<Vec<Resource>, AllocError>
    ensures { IfOk result (λ v. v.items
        ≡ flat_map (λ x. option_to_list (resource_of ticket.now.rows x)) ids.now) }
{
    let mut found = Vec::with_capacity(alloc, ids.len())?;
    for id in ids {
        push_copy(alloc, &mut found, ticket.resource(id))?;
    }
    Ok(found)
}

/// Copies of the resources of a good record that may be changed, in ticket order.
pub fn resources_to_change(
    alloc: Global,
    ticket: &Ticket,
    spawn: &SpawnRec,
) -> Result<Vec<Resource>, AllocError>
    requires valid { IsValid ticket.now.rows }
    requires good { IsGood ticket.now.rows spawn.now }
    ensures { IfOk result (λ v. v.items ≡ parts.resources_among spawn.now.rw ticket.now.rows) }
{
    resources_of(alloc, ticket, spawn.rw.as_slice())
}
