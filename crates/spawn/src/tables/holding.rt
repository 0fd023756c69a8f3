//! The first spawn that holds what stands at a node.

ghost use Rattle.std.specs.Prelude.{◌≡◌, ◌&&◌, ◌||◌};
ghost use Rattle.std.specs.List.{find, position, position_or_len};
ghost use Rattle.std.specs.Option.{option_copied};
ghost use Rattle.std.specs.Str.{bytes_eq};
ghost use Rattle.ticket_items.specs.Ids.{mem};
ghost use Rattle.ticket_rows.specs.Place.{node_places};
ghost use Rattle.ticket_rows.specs.Place as tree;
ghost use Rattle.spawn.specs.Records.{is_out};

use crate::records::spawn_rec::SpawnRec;
use ticket_items::is_among;
use ticket_tree::{Id, Ticket};

/// Where the first record stands that is out with a copy of this resource to change.
fn place_with_copy(records: &[SpawnRec], id: &Id) -> Option<usize>
    ensures { result ≡ position (λ r. is_out r && mem id.now r.rw) records.now }
{
    records.iter().position(|spawn| spawn.is_out() && is_among(spawn.rw.as_slice(), id))
}

/// How many records stand before the first that is out with a copy of this resource to change.
#[tactic(auto, using(ticket_items::proofs::Places::unwrap_or_position))]
fn before_copy(records: &[SpawnRec], id: &Id) -> usize
    ensures { result ≡ position_or_len (λ r. is_out r && mem id.now r.rw) records.now }
{
    place_with_copy(records, id).unwrap_or(records.len())
}

/// Where the first record stands that is out at this node.
fn place_at_node(records: &[SpawnRec], node: &Id) -> Option<usize>
    ensures { result ≡ position (λ r. is_out r && bytes_eq node.now r.node) records.now }
{
    records
        .iter()
        .position(|spawn| spawn.is_out() && *node == spawn.node)
}

/// How many records stand before the first that is out at this node.
#[tactic(auto, using(ticket_items::proofs::Places::unwrap_or_position))]
fn before_node(records: &[SpawnRec], node: &Id) -> usize
    ensures { result ≡ position_or_len (λ r. is_out r && bytes_eq node.now r.node) records.now }
{
    place_at_node(records, node).unwrap_or(records.len())
}

/// How many records stand before the first that is out at a node or at one above it; all where no
/// node has the id. Goes once over the rows in front, and once over records for each node above.
fn before_above(ticket: &Ticket, records: &[SpawnRec], node: &Id) -> usize
    ensures { result ≡ position_or_len
        (λ r. is_out r && tree.is_below (node_places ticket.now.rows) node.now r.node)
        records.now }
{
    let Some(at) = ticket.at(node) else {
        return records.len();
    };
    let front = &at.front;
    let mut depth = at.depth;
    let mut free = before_node(records, node);
    for place in (0..front.len()).rev() {
        let row = front.at(place);
        if row.depth < depth {
            depth = row.depth;
            free = before_node(&records[..free], &row.id);
        }
    }
    free
}

/// How many records stand before the first that is out and claims what stands under this id at
/// this node.
fn before_holder(ticket: &Ticket, records: &[SpawnRec], node: &Id, id: &Id) -> usize
    ensures { result
        ≡ position_or_len (λ r. is_out r
        && (tree.is_below (node_places ticket.now.rows) node.now r.node
        || mem id.now r.rw)) records.now }
{
    let free = before_copy(records, id);
    before_above(ticket, &records[..free], node)
}

/// The first spawn that holds what stands under this id at this node.
pub fn holding_record<'a>(
    ticket: &Ticket,
    records: &'a [SpawnRec],
    node: &Id,
    id: &Id,
) -> Option<&'a SpawnRec>
    ensures { option_copied result
        ≡ find (λ r. is_out r
        && (tree.is_below (node_places ticket.now.rows) node.now r.node
        || mem id.now r.rw)) records.now }
{
    records.get(before_holder(ticket, records, node, id))
}
