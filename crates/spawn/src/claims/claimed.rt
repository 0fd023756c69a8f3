//! The ids of what a spawn claims.

ghost use Rattle.std.specs.Prelude.{◌≡◌, ◌++◌, map, IfOk, OnOk};
ghost use Rattle.std.specs.List.{filter};
ghost use Rattle.ticket_items.specs.Ids.{mem};
ghost use Rattle.ticket_items.specs.Resource.{resource_ids};
ghost use Rattle.ticket_rows.specs.Ticket.{IsValid, ids, ids_of};
ghost use Rattle.spawn.specs.Holdings.{claimed_ids};

use crate::records::spawn_rec::SpawnRec;
use crate::tables::table::stands;
use std::alloc::{AllocError, Global};
use ticket_tree::{Id, NodeRow, Resource, Rows, Ticket};

/// Adds the ids of a pool.
fn push_pool<'a>(all: &mut Vec<&'a Id>, pool: &'a [Resource]) -> Result<(), AllocError>
    ensures { OnOk result (map (λ s. s.now) all.new.items
        ≡ map (λ s. s.now) all.old.items ++ resource_ids pool.now) }
{
    for resource in pool {
        all.push(&resource.id)?;
    }
    Ok(())
}

/// Adds the ids of a row and of its pool.
fn push_row<'a>(all: &mut Vec<&'a Id>, row: &'a NodeRow) -> Result<(), AllocError>
    ensures { OnOk result (map (λ s. s.now) all.new.items
        ≡ map (λ s. s.now) all.old.items ++ ids_of row.now) }
{
    all.push(&row.id)?;
    push_pool(all, row.resources.as_slice())
}

/// Adds the ids of rows and of their pools.
fn push_rows<'a>(all: &mut Vec<&'a Id>, rows: &Rows<'a>) -> Result<(), AllocError>
    ensures { OnOk result (map (λ s. s.now) all.new.items
        ≡ map (λ s. s.now) all.old.items ++ ids rows.now) }
{
    for place in 0..rows.len() {
        let row = rows.at(place);
        push_row(all, row)?;
    }
    Ok(())
}

/// Adds those of these ids that stand in a ticket.
fn push_known<'a>(all: &mut Vec<&'a Id>, ticket: &Ticket, some: &'a [Id]) -> Result<(), AllocError>
    ensures { OnOk result (map (λ s. s.now) all.new.items
        ≡ map (λ s. s.now) all.old.items
        ++ filter (λ x. mem x (ids ticket.now.rows)) some.now) }
{
    for id in some {
        if stands(ticket, id) {
            all.push(id)?;
        }
    }
    Ok(())
}

/// The ids of what a spawn claims: of the nodes at and below its own and of the resources at home
/// there, and of its copies that may be changed, as far as they stand in the ticket.
pub fn claim_of<'a>(
    alloc: Global,
    ticket: &'a Ticket,
    spawn: &'a SpawnRec,
) -> Result<Vec<&'a Id>, AllocError>
    ensures claimed { IfOk result (λ v. map (λ s. s.now) v.items
        ≡ claimed_ids ticket.now.rows spawn.now) }
    ensures valid { IsValid ticket.now.rows }
{
    let mut all = Vec::new(alloc);
    push_rows(&mut all, &ticket.rows_below(&spawn.node))?;
    push_known(&mut all, ticket, spawn.rw.as_slice())?;
    Ok(all)
}
