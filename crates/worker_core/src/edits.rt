//! Why an edit of an entry is refused.

ghost use Rattle.std.specs.Prelude.{◌≡◌, false};
ghost use Rattle.ticket_items.specs.Ids.{mem};
ghost use Rattle.ticket_items.specs.Resource.{resource_ids};
ghost use Rattle.ticket_items.specs.Edit as edits;
ghost use Rattle.ticket_rows.specs.EditRefusal.{Lookups, later_refusal};
ghost use Rattle.ticket_rows.specs.Homes.{has_resource};
ghost use Rattle.ticket_rows.specs.Ticket.{has_node};
ghost use Rattle.worker_core.specs.Orders as orders;

use crate::entry::Entry;
use ticket_rows::{pools, rows};
use ticket_tree::{Edit, Id, NodeRow, Part, Refusal, Resource};

fn has_node(rows: &[NodeRow], id: &Id) -> bool
    ensures { result ≡ has_node rows.now id.now }
{
    rows::node(rows, id).is_some()
}

/// Whether a resource of the rows' pools has the id.
fn has_resource(rows: &[NodeRow], id: &Id) -> bool
    ensures { result ≡ has_resource rows.now id.now }
{
    pools::resource(rows, id).is_some()
}

fn has_copy(copies: &[Resource], id: &Id) -> bool
    ensures { result ≡ mem id.now (resource_ids copies.now) }
{
    pools::holds(copies, id)
}

/// Whether the target of an edit is a node of a part, or a resource of its pools or a copy that may
/// be changed.
fn is_here(edit: &Edit, part: &Part) -> bool
    ensures { result ≡ orders.is_here edit.now part.now }
{
    let nodes = part.rows();
    let id = edit.target();
    if edit.is_of_node() {
        has_node(nodes, id)
    } else {
        has_resource(nodes, id) || has_copy(part.rw(), id)
    }
}

/// Whether the target of an edit is a copy that may be read alone.
fn is_to_read(edit: &Edit, part: &Part) -> bool
    ensures { result ≡ orders.is_to_read edit.now part.now }
{
    !edit.is_of_node() && has_copy(part.ro(), edit.target())
}

/// Why what an edit gives is refused: a Status that only a spawn gives.
fn value_refusal(edit: &Edit) -> Option<Refusal>
    ensures { (at : Lookups) → edits.is_structural edit.now ≡ false
        → result ≡ later_refusal edit.now at }
{
    match edit {
        Edit::SetStatus { status, .. } => {
            if rows::is_reserved(status) {
                Some(Refusal::ReservedStatus)
            } else {
                None
            }
        }
        Edit::SetAttr { .. } | Edit::Note { .. } => None,
        Edit::SetResStatus { .. } | Edit::SetResAttr { .. } => None,
        Edit::AddNode { .. } | Edit::AddResource { .. } | Edit::AddLink { .. } => None,
    }
}

/// Why an edit of a part that is open is refused: the first reason that holds.
fn part_refusal(edit: &Edit, part: &Part) -> Option<Refusal>
    ensures { result ≡ orders.part_edit_refusal edit.now part.now }
{
    if edit.is_structural() {
        return Some(Refusal::NotForWorkers);
    }
    let to_read = is_to_read(edit, part);
    if !is_here(edit, part) && !to_read {
        return Some(Refusal::NotInPart);
    }
    if to_read {
        return Some(Refusal::ReadOnly);
    }
    value_refusal(edit)
}

/// Why an edit of an entry is refused: the first reason that holds. Needs no memory.
pub fn refusal_of(edit: &Edit, entry: &Entry) -> Option<Refusal>
    ensures { result ≡ orders.edit_refusal edit.now entry.now }
{
    match entry.open_part() {
        None => Some(Refusal::NotOpen),
        Some(part) => part_refusal(edit, part),
    }
}
