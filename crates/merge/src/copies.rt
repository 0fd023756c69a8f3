//! Whether the copies of a part that may be changed are those of the ticket's resources.

ghost use Rattle.std.specs.Prelude.{◌≡◌};
ghost use Rattle.std.specs.Cmp.Lexicographic.{pointwise};
ghost use Rattle.std.specs.List.{filter};
ghost use Rattle.std.specs.Option.{option_copied};
ghost use Rattle.ticket_items.specs.Ids.{mem};
ghost use Rattle.ticket_items.specs.Resource.{is_alike};
ghost use Rattle.ticket_rows.specs.Ticket.{IsValid};
ghost use Rattle.spawn.specs.Parts.{resources_among};
ghost use Rattle.merge.specs.Alike as alike;

use crate::alike::are_of;
use crate::in_order::are_in_order;
use spawn::behind;
use ticket_items::is_among;
use ticket_tree::{Id, Resource, Rows};

/// The copies behind those of the pool's resources whose ids are among these, if the copies begin
/// with them.
fn behind_pool<'a>(pool: &[Resource], ids: &[Id], copies: &'a [Resource]) -> Option<&'a [Resource]>
    ensures { option_copied result
        ≡ alike.behind (filter (λ x. mem x.id ids.now) pool.now) copies.now }
{
    let mut rest = copies;
    for resource in pool {
        if is_among(ids, &resource.id) {
            rest = behind(rest, resource)?;
        }
    }
    Some(rest)
}

/// Whether the copies have the ids, names and Classes of the resources whose ids are among these,
/// in ticket order. Asks for each resource whether it is among them.
fn are_copies_among(rows: &Rows<'_>, ids: &[Id], copies: &[Resource]) -> bool
    ensures { result ≡ pointwise is_alike
        (resources_among ids.now rows.now) copies.now }
{
    let mut rest = copies;
    for place in 0..rows.len() {
        let row = rows.at(place);
        match behind_pool(row.resources.as_slice(), ids, rest) {
            None => return false,
            Some(later) => rest = later,
        }
    }
    rest.is_empty()
}

/// Whether the copies have the ids, names and Classes of the resources whose ids are among these,
/// in ticket order. Where the ids stand in ticket order too, one walk past the resources tells it
/// of them, and one of the copies.
pub fn are_copies(rows: &Rows<'_>, ids: &[Id], copies: &[Resource]) -> bool
    requires { IsValid rows.now }
    ensures { result ≡ pointwise is_alike
        (resources_among ids.now rows.now) copies.now }
{
    if !are_in_order(rows, ids) {
        return are_copies_among(rows, ids, copies);
    }
    are_of(copies, ids) && are_in_order(rows, copies)
}
