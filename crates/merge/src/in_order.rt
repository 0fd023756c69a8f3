//! Whether ids or copies stand in ticket order: one walk past the ticket's resources, on which each
//! is met in its turn.

ghost use Rattle.std.specs.Prelude.{◌≡◌};
ghost use Rattle.spawn.specs.Parts.{resources};
ghost use Rattle.merge.specs.InOrder as order;

use spawn::{OfResource, behind};
use ticket_tree::{Resource, Rows};

/// The ids or copies that are left behind the resources of a pool.
fn rest_behind<'a, T: OfResource>(pool: &[Resource], items: &'a [T]) -> &'a [T]
    ensures { result.now ≡ order.rest_behind T.is_of pool.now items.now }
{
    let mut left = items;
    for resource in pool {
        if let Some(later) = behind(left, resource) {
            left = later;
        }
    }
    left
}

/// Whether the ids or copies are those of resources, in ticket order.
pub fn are_in_order<T: OfResource>(rows: &Rows<'_>, items: &[T]) -> bool
    ensures { result ≡ order.are_met T.is_of (resources rows.now) items.now }
{
    let mut left = items;
    for place in 0..rows.len() {
        let row = rows.at(place);
        left = rest_behind(row.resources.as_slice(), left);
    }
    left.is_empty()
}
