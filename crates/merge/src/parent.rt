//! The parent of a node.

ghost use Rattle.std.specs.Prelude.{◌≡◌, nat_lt, reverse};
ghost use Rattle.std.specs.List.{find};
ghost use Rattle.std.specs.Option.{option_copied};
ghost use Rattle.ticket_rows.specs.Place.{node_places, up};
ghost use Rattle.ticket_rows.specs.Ticket.{IsValid};

use ticket_tree::{Id, NodeRow, Rows, Ticket};

/// The last of the rows that stands higher than this depth.
fn last_above<'a>(rows: &Rows<'a>, depth: u32) -> Option<&'a NodeRow>
    ensures { option_copied result ≡ find (λ r. nat_lt r.depth depth) (reverse rows.now) }
{
    for place in (0..rows.len()).rev() {
        let row = rows.at(place);
        if row.depth < depth {
            return Some(row);
        }
    }
    None
}

/// The id of a node's parent. `None` for the root, and where no node has the id. Needs no memory.
pub fn parent_of<'a>(ticket: &'a Ticket, node: &Id) -> Option<&'a Id>
    ensures parent { option_copied result ≡ up (node_places ticket.now.rows) node.now }
    ensures valid { IsValid ticket.now.rows }
{
    let at = ticket.at(node)?;
    let parent = last_above(&at.front, at.depth)?;
    Some(&parent.id)
}
