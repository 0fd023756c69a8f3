//! Whether records stand in a ticket.

ghost use Rattle.std.specs.Prelude.{◌≡◌, is_some};
ghost use Rattle.std.specs.List.{list_all};
ghost use Rattle.ticket_rows.specs.Homes.{has_resource};
ghost use Rattle.ticket_rows.specs.Place.{node_places, up};
ghost use Rattle.spawn.specs.Stored.{stands_in};

use crate::records::spawn_rec::SpawnRec;
use crate::spawns::refusing::are_resources;
use ticket_tree::{Id, Resource, Ticket};

/// Whether a node of a ticket has this id and stands below another.
fn has_parent(ticket: &Ticket, node: &Id) -> bool
    ensures { result ≡ is_some (up (node_places ticket.now.rows) node.now) }
{
    match ticket.node(node) {
        None => false,
        Some(row) => 1 < row.depth,
    }
}

/// Whether each copy is that of a resource of a ticket.
fn are_of_resources(ticket: &Ticket, copies: &[Resource]) -> bool
    ensures { result ≡ list_all (λ x. has_resource ticket.now.rows x.id) copies.now }
{
    copies.iter().all(|copy| ticket.home_of(&copy.id).is_some())
}

/// Whether a record stands in a ticket.
fn stands(ticket: &Ticket, spawn: &SpawnRec) -> bool
    ensures { result ≡ stands_in ticket.now.rows spawn.now }
{
    has_parent(ticket, &spawn.node)
        && are_resources(ticket, spawn.rw.as_slice())
        && are_of_resources(ticket, spawn.ro.as_slice())
}

/// Whether each record, also one that was merged or withdrawn, stands in a ticket: its node is one
/// below another, and its copies are of resources. Needs no memory.
pub fn stand_in(ticket: &Ticket, records: &[SpawnRec]) -> bool
    // Proved: Stored records are tested as a whole.
    // By `are_apart`: `apart`; `laws::whether_records_stand_well_is_a_test`.
    ensures { result ≡ list_all (stands_in ticket.now.rows) records.now }
{
    records.iter().all(|spawn| stands(ticket, spawn))
}
