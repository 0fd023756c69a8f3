//! Whether a part can have come from a ticket.

ghost use Rattle.std.specs.Prelude.{◌≡◌, ◌+◌, ◌||◌, nat_le};
ghost use Rattle.std.specs.List.{list_any};
ghost use Rattle.std.specs.Str.{bytes_eq};
ghost use Rattle.ticket_items.specs.Ids as id_lists;
ghost use Rattle.ticket_tree.specs.Part as part;
ghost use Rattle.ticket_rows.specs.Ticket.{ids, max_depth};

use crate::linked::is_linked;
use ticket_items::{Ancestor, Id, NodeRow, Resource};
use ticket_rows::Rows;
use ticket_rows::pools::{has_id, holds};
use ticket_rows::rows::MAX_DEPTH;

/// Whether a part has ancestors at all.
pub fn has_ancestors(ancestors: &[Ancestor]) -> bool
    ensures { result ≡ part.has_ancestors ancestors.now }
{
    !ancestors.is_empty()
}

/// Whether one of the ancestors has the id.
fn names(ancestors: &[Ancestor], id: &Id) -> bool
    ensures { result ≡ list_any (λ a. bytes_eq a.node_id id.now) ancestors.now }
{
    ancestors.iter().any(|ancestor| ancestor.node_id == *id)
}

/// Whether no ancestor's id stands twice among the ancestors.
fn are_distinct(ancestors: &[Ancestor]) -> bool
    ensures { result ≡ id_lists.are_distinct (part.ancestor_ids ancestors.now) }
{
    for index in 0..ancestors.len() {
        if names(&ancestors[index + 1..], &ancestors[index].node_id) {
            return false;
        }
    }
    true
}

/// Whether the rows have the id, or the copies do.
fn some_has_id(rows: &[NodeRow], rw: &[Resource], ro: &[Resource], id: &Id) -> bool
    ensures { result ≡ ((id_lists.mem id.now (ids rows.now)
        || list_any (λ x. bytes_eq x.id id.now) rw.now) || list_any (λ x. bytes_eq x.id id.now)
        ro.now) }
{
    has_id(rows, id) || holds(rw, id) || holds(ro, id)
}

/// Whether the id stands in a part.
fn stands(rows: &[NodeRow], rw: &[Resource], ro: &[Resource], id: &Id) -> bool
    ensures { result ≡ id_lists.mem id.now (part.part_ids rows.now rw.now ro.now) }
{
    some_has_id(rows, rw, ro, id)
}

/// Whether no ancestor's id stands in a part.
fn are_apart(ancestors: &[Ancestor], rows: &[NodeRow], rw: &[Resource], ro: &[Resource]) -> bool
    ensures { result ≡ part.are_apart (part.ancestor_ids ancestors.now)
        (part.part_ids rows.now rw.now ro.now) }
{
    for ancestor in ancestors {
        if stands(rows, rw, ro, &ancestor.node_id) {
            return false;
        }
    }
    true
}

/// Whether the ancestors' ids differ from each other and from all ids of a part.
pub fn are_ancestors_new(
    ancestors: &[Ancestor],
    rows: &[NodeRow],
    rw: &[Resource],
    ro: &[Resource],
) -> bool
    ensures { result ≡ part.are_ancestors_new ancestors.now (part.part_ids rows.now rw.now ro.now) }
{
    are_distinct(ancestors) && are_apart(ancestors, rows, rw, ro)
}

/// Whether a node is no deeper than 32 below this many ancestors.
fn is_shallow_below(above: usize, row: &NodeRow) -> bool
    ensures { result ≡ nat_le (row.now.depth + above) max_depth }
{
    above <= 32 && row.depth as usize + above <= MAX_DEPTH as usize
}

/// Whether no node is deeper than 32 below this many ancestors.
pub fn are_shallow_below(above: usize, rows: &[NodeRow]) -> bool
    ensures { result ≡ part.are_shallow_below above rows.now }
{
    rows.iter().all(|row| is_shallow_below(above, row))
}

/// Whether each of the resources is linked by some row.
pub fn are_linked(rows: &[NodeRow], resources: &[Resource]) -> bool
    ensures { result ≡ part.are_linked rows.now resources.now }
{
    let rows = Rows::new(rows);
    resources
        .iter()
        .all(|resource| is_linked(&rows, &resource.id))
}
