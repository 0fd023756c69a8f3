//! The nodes of a ticket in preorder, and what is found among them.

ghost use Rattle.std.specs.Prelude.{◌≡◌, ◌+◌, ◌<◌, ◌≤◌, ◌&&◌, ◌==◌, false, true, length, nat_le};
ghost use Rattle.std.specs.Prelude.{suc};
ghost use Rattle.std.specs.List.{position, position_or_len};
ghost use Rattle.std.specs.Option.{option_copied};
ghost use Rattle.std.specs.Prelude.{Some, drop, slice_get};
ghost use Rattle.std.specs.Str.{bytes_eq};
ghost use Rattle.ticket_rows.specs.Outline as outline;
ghost use Rattle.ticket_rows.specs.Ticket.{depths, row_of};
ghost use Rattle.ticket_rows.specs.Ticket as valid;
ghost use Rattle.ticket_items.specs.declared.node_row.NodeRow.{NodeRow};

use ticket_items::{Id, Name, NodeRow};

/// The Status that only a spawned node shows (JDF 1.5, 4.4).
const SPAWNED: &str = "Spawned";

/// The greatest depth of a node.
pub const MAX_DEPTH: u32 = 32;

/// Whether a Status is the one that only a spawned node shows.
pub fn is_reserved(status: &Name) -> bool
    // Proved: The Status that a spawned node shows is told.
    ensures { result ≡ valid.is_reserved status.now }
{
    status.as_str() == SPAWNED
}

/// Whether the depths are those of a tree in preorder.
pub fn is_outline(rows: &[NodeRow]) -> bool
    // Proved: Tests say just whether rows are a tree, unreserved and shallow.
    // By `are_unreserved`, `are_shallow`.
    ensures { result ≡ outline.is_outline (depths rows.now) }
{
    let Some((root, later)) = rows.split_first() else {
        return false;
    };
    root.depth == 1 && goes_on(later)
}

/// Whether a row at `depth` may stand behind one at `above`.
fn may_follow(depth: u32, above: u32) -> bool
    ensures { result ≡ (nat_le 2 depth && nat_le depth (suc above)) }
{
    2 <= depth && depth - 1 <= above
}

/// Whether the rows may follow the root's.
fn goes_on(rows: &[NodeRow]) -> bool
    ensures { result ≡ outline.goes_on 1 (depths rows.now) }
{
    let mut above = 1;
    for row in rows {
        if !may_follow(row.depth, above) {
            return false;
        }
        above = row.depth;
    }
    true
}

/// Whether no node's Status is `Spawned`.
pub fn are_unreserved(rows: &[NodeRow]) -> bool
    ensures { result ≡ valid.are_unreserved rows.now }
{
    rows.iter().all(|row| !is_reserved(&row.status))
}

/// Whether no node is deeper than 32.
pub fn are_shallow(rows: &[NodeRow]) -> bool
    ensures { result ≡ valid.are_shallow rows.now }
{
    rows.iter().all(|row| row.depth <= MAX_DEPTH)
}

/// The row of a node.
pub fn node<'a>(rows: &'a [NodeRow], id: &Id) -> Option<&'a NodeRow>
    // Proved: Rows, places and resources are found.
    // By `rows::place_of`, `pools::resource`, `pools::has_id`, `holds`.
    ensures { option_copied result ≡ row_of rows.now id.now }
{
    rows.iter().find(|row| row.id == *id)
}

/// Where the row of a node stands.
pub fn place_of(rows: &[NodeRow], id: &Id) -> Option<usize>
    ensures { result ≡ position (λ r. bytes_eq r.id id.now) rows.now }
{
    rows.iter().position(|row| row.id == *id)
}

/// Where the first row stands that is no deeper than `depth`.
fn shallow_place(rows: &[NodeRow], depth: u32) -> Option<usize>
    ensures { result ≡ position (λ r. nat_le r.depth depth) rows.now }
{
    rows.iter().position(|row| row.depth <= depth)
}

/// How many rows from the front on are deeper than `depth`.
#[tactic(auto, using(ticket_items::proofs::Places::unwrap_or_position))]
pub(crate) fn deeper_count(rows: &[NodeRow], depth: u32) -> usize
    ensures count { result ≡ position_or_len (λ r. nat_le r.depth depth) rows.now }
    ensures within { result ≤ length rows.now }
{
    shallow_place(rows, depth).unwrap_or(rows.len())
}
