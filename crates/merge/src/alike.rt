//! Whether rows, ids and copies are those of the ticket, in what a worker may not change.

ghost use Rattle.std.specs.Prelude.{◌≡◌, ◌-◌, length};
ghost use Rattle.std.specs.Cmp.Lexicographic.{pointwise};
ghost use Rattle.merge.specs.Alike as alike;

use spawn::OfResource;
use ticket_tree::{NodeRow, Resource, Rows};

/// Whether these are the ids or copies of the resources, in order.
pub fn are_of<T: OfResource>(resources: &[Resource], items: &[T]) -> bool
    ensures { result ≡ pointwise T.is_of resources.now items.now }
{
    resources.len() == items.len()
        && resources
            .iter()
            .zip(items)
            .all(|(resource, item)| item.is_of(resource))
}

/// Whether a row of a part is one of the ticket's, so many levels higher, but for what a worker may
/// change.
fn is_row(old: &NodeRow, new: &NodeRow, levels: u32) -> bool
    ensures { result ≡ alike.is_row levels old.now new.now }
{
    old.id == new.id
        && old.depth.saturating_sub(levels) == new.depth
        && old.kind == new.kind
        && old.job_part == new.job_part
        && old.links == new.links
        && are_of(old.resources.as_slice(), new.resources.as_slice())
        && new.audits.as_slice().starts_with(old.audits.as_slice())
}

/// Whether the rows of a part are those of the ticket, of which there are as many.
fn are_alike(old: &Rows<'_>, new: &[NodeRow], levels: u32) -> bool
    requires { length old.now ≡ length new.now }
    ensures { result ≡ pointwise (alike.is_row levels) old.now new.now }
{
    for place in 0..new.len() {
        if !is_row(old.at(place), &new[place], levels) {
            return false;
        }
    }
    true
}

/// Whether the rows of a part are those of the ticket, so many levels higher, but for what a worker
/// may change.
pub fn are_rows(old: &Rows<'_>, new: &[NodeRow], levels: u32) -> bool
    ensures { result ≡ pointwise (alike.is_row levels) old.now new.now }
{
    old.len() == new.len() && are_alike(old, new, levels)
}
