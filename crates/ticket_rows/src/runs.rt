//! How many nodes stand below each node, and which stands above it.

ghost use Rattle.std.specs.Prelude.{◌≡◌, ◌<◌, ℕ, Some, IfOk, length, slice_get};
ghost use Rattle.std.specs.Option.{option_map};
ghost use Rattle.std.specs.Vec.{vec_capacity};
ghost use Rattle.ticket_items.specs.declared.node_row.NodeRow.{NodeRow};
ghost use Rattle.ticket_rows.specs.Index.{longer_run, runs_of};
ghost use Rattle.ticket_rows.specs.Parents.{AreParents, EachAbove, IsAbove, Nest};
ghost use Rattle.ticket_rows.specs.Ticket.{depths};

use crate::places::Places;
use crate::rows::deeper_count;
use std::alloc::{AllocError, Global};
use ticket_items::NodeRow;

/// For each row how many deeper ones follow it, up to the first that isn't deeper.
pub fn runs_of(alloc: Global, rows: &[NodeRow]) -> Result<Vec<usize>, AllocError>
    ensures { IfOk result (λ runs. runs.items ≡ runs_of (depths rows.now)) }
{
    let mut runs = Vec::with_capacity(alloc, rows.len())?;
    for place in 0..rows.len() {
        runs.push(deeper_count(&rows[place + 1..], rows[place].depth))?;
    }
    Ok(runs)
}

/// Where the node above one stands, where that is known of all in front of it; the place of the
/// node itself where there is none.
fn parent_of(runs: &[usize], parents: &[usize], node: usize) -> usize
    requires runs { Nest runs.now }
    requires within { node < length runs.now }
    requires known { EachAbove runs.now parents.now }
    requires count { length parents.now ≡ node }
    ensures { IsAbove runs.now node result }
{
    if node == 0 {
        return node;
    }
    let mut above = node - 1;
    while above + runs[above] < node {
        let next = parents[above];
        if next == above {
            return node;
        }
        above = next;
    }
    above
}

/// Where the node above each stands.
pub fn parents_of(alloc: Global, runs: &[usize]) -> Result<Vec<usize>, AllocError>
    requires { Nest runs.now }
    ensures { IfOk result (λ parents. EachAbove runs.now parents.items
        × (length parents.items ≡ length runs.now)) }
{
    let mut parents = Vec::with_capacity(alloc, runs.len())?;
    for node in 0..runs.len() {
        parents.push(parent_of(runs, parents.as_slice(), node))?;
    }
    Ok(parents)
}

/// Counts one more below a node, and below each above it.
pub fn lengthen(runs: &mut Vec<usize>, places: &Places, parents: &[usize], node: usize)
    requires runs { Nest runs.old.items }
    requires parents { AreParents runs.old.items places.now.items parents.now }
    requires within { (n k : ℕ) → slice_get places.now.items n ≡ Some k
        → k < length runs.old.items }
    requires came { node < length places.now.items }
    ensures len { length runs.new.items ≡ length runs.old.items }
    ensures room { vec_capacity runs.new ≡ vec_capacity runs.old }
    ensures one { (place k : ℕ) → slice_get places.now.items node ≡ Some place
        → slice_get runs.new.items k ≡ option_map (longer_run place k)
        (slice_get runs.old.items k) }
{
    let mut parent = parents[node];
    let mut place = places.at(node);
    let mut above = places.at(parent);
    runs[place] += 1;
    while above < place {
        parent = parents[parent];
        place = above;
        above = places.at(parent);
        runs[place] += 1;
    }
}
