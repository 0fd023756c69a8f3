//! Whether rows link a resource.

ghost use Rattle.std.specs.Prelude.{◌≡◌};
ghost use Rattle.std.specs.List.{list_any};
ghost use Rattle.std.specs.Str.{bytes_eq};
ghost use Rattle.ticket_tree.specs.Part as part;

use ticket_items::{Id, NodeRow};
use ticket_rows::Rows;

/// Whether the row links the resource of an id.
fn links(row: &NodeRow, id: &Id) -> bool
    ensures { result ≡ list_any (λ l. bytes_eq l.rref id.now) row.now.links }
{
    row.links.as_slice().iter().any(|link| link.rref == *id)
}

/// Whether some row links the resource of an id.
pub fn is_linked(rows: &Rows<'_>, id: &Id) -> bool
    // Proved: Whether rows link a resource is told.
    ensures { result ≡ part.is_linked rows.now id.now }
{
    for place in 0..rows.len() {
        if links(rows.at(place), id) {
            return true;
        }
    }
    false
}
