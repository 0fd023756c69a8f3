//! The resources of the nodes of a ticket, and where they are at home.

ghost use Rattle.std.specs.Prelude.{◌≡◌, ◌||◌, slice_get};
ghost use Rattle.std.specs.List.{find, list_any, position};
ghost use Rattle.std.specs.Option.{option_copied};
ghost use Rattle.std.specs.Str.{bytes_eq};
ghost use Rattle.ticket_rows.specs.Homes as homes;
ghost use Rattle.ticket_items.specs.Ids.{mem};
ghost use Rattle.ticket_rows.specs.Ticket.{ids};

use ticket_items::{Id, NodeRow, Resource};

/// Whether a resource of the pool has the id.
pub fn holds(pool: &[Resource], id: &Id) -> bool
    ensures { result ≡ list_any (λ x. bytes_eq x.id id.now) pool.now }
{
    pool.iter().any(|resource| resource.id == *id)
}

/// Where the row stands in whose pool the resource of an id is.
pub(crate) fn home_place(rows: &[NodeRow], id: &Id) -> Option<usize>
    ensures { result ≡ position (λ r. list_any (λ x. bytes_eq x.id id.now) r.resources) rows.now }
{
    rows.iter()
        .position(|row| holds(row.resources.as_slice(), id))
}

/// The resource of an id in the pool.
fn find_in<'a>(pool: &'a [Resource], id: &Id) -> Option<&'a Resource>
    ensures { option_copied result ≡ find (λ x. bytes_eq x.id id.now) pool.now }
{
    pool.iter().find(|resource| resource.id == *id)
}

/// The resource at a place in the pool of a row.
pub(crate) fn resource_at(row: &NodeRow, place: usize) -> Option<&Resource>
    ensures { option_copied result ≡ slice_get row.now.resources place }
{
    row.resources.as_slice().get(place)
}

/// The resource of an id.
pub fn resource<'a>(rows: &'a [NodeRow], id: &Id) -> Option<&'a Resource>
    ensures { option_copied result ≡ homes.resource_of rows.now id.now }
{
    match home_place(rows, id) {
        None => None,
        Some(home) => find_in(rows[home].resources.as_slice(), id),
    }
}

/// Whether the row or a resource of its pool has the id.
fn row_has_id(row: &NodeRow, id: &Id) -> bool
    ensures { result ≡ (bytes_eq row.now.id id.now
        || list_any (λ x. bytes_eq x.id id.now) row.now.resources) }
{
    row.id == *id || holds(row.resources.as_slice(), id)
}

/// Whether some row has the id, or a resource of its pool.
fn some_has_id(rows: &[NodeRow], id: &Id) -> bool
    ensures { result ≡ list_any
        (λ r. bytes_eq r.id id.now || list_any (λ x. bytes_eq x.id id.now) r.resources) rows.now }
{
    rows.iter().any(|row| row_has_id(row, id))
}

/// Whether a node or a resource has the id.
pub fn has_id(rows: &[NodeRow], id: &Id) -> bool
    ensures { result ≡ mem id.now (ids rows.now) }
{
    some_has_id(rows, id)
}
