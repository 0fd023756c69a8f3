//! Whether a resource is linked outside a node.

ghost use Rattle.std.specs.Prelude.{◌≡◌, true};
ghost use Rattle.ticket_items.specs.Ids.{mem};
ghost use Rattle.ticket_rows.specs.Place.{places};
ghost use Rattle.ticket_rows.specs.Ticket.{IsValid, has_node};
ghost use Rattle.ticket_tree.specs.At.{rows_below};
ghost use Rattle.plain_shop.specs.Claim.{ids_of, linked_outside};

use ticket_tree::{Id, Rows, Ticket, is_linked};

/// Whether a resource is linked outside a node, below which are these rows.
pub fn is_linked_outside(ticket: &Ticket, node: &Id, below: &Rows<'_>, resource: &Id) -> bool
    requires valid { IsValid ticket.now.rows }
    requires known { has_node ticket.now.rows node.now ≡ true }
    requires rows { below.now ≡ rows_below ticket.now.rows node.now }
    ensures { result ≡ mem resource.now
        (ids_of (linked_outside (places ticket.now.rows) node.now)) }
{
    match ticket.home_of(resource) {
        None => false,
        Some(home) => !ticket.is_below(home, node) && is_linked(below, resource),
    }
}
