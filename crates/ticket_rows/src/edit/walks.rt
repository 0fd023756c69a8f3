//! Where the row stands that an edit of a part changes, looked for row by row, or why the edit is
//! refused: the first reason that holds.

ghost use Rattle.std.specs.Prelude.{◌≡◌, None, Some, MatchResult};
ghost use Rattle.std.specs.List.{list_any, position};
ghost use Rattle.std.specs.Str.{bytes_eq};
ghost use Rattle.ticket_rows.specs.Edit as edit;

use crate::pools::home_place;
use crate::rows::{is_reserved, place_of};
use ticket_items::{Edit, Id, Name, NodeRow, Refusal};

/// The row of a node, or `UnknownNode`.
pub fn known_node(rows: &[NodeRow], node: &Id) -> Result<usize, Refusal>
    ensures place { MatchResult result
        (λ place. position (λ r. bytes_eq r.id node.now) rows.now ≡ Some place) (λ _. Unit {0}) }
    ensures refusal { MatchResult result (λ _. edit.node_refusal node.now rows.now ≡ None)
        (λ e. edit.node_refusal node.now rows.now ≡ Some e) }
{
    match place_of(rows, node) {
        Some(place) => Ok(place),
        None => Err(Refusal::UnknownNode),
    }
}

/// The row of the node in whose pool a resource is, or `UnknownResource`.
pub fn known_home(rows: &[NodeRow], resource: &Id) -> Result<usize, Refusal>
    ensures place { MatchResult result
        (λ place. position (λ r. list_any (λ x. bytes_eq x.id resource.now) r.resources) rows.now
        ≡ Some place) (λ _. Unit {0}) }
    ensures refusal { MatchResult result (λ _. edit.resource_refusal resource.now rows.now ≡ None)
        (λ e. edit.resource_refusal resource.now rows.now ≡ Some e) }
{
    match home_place(rows, resource) {
        Some(home) => Ok(home),
        None => Err(Refusal::UnknownResource),
    }
}

/// The row of a node that gets a Status, or `UnknownNode`, then `ReservedStatus`.
pub fn open_to_status(rows: &[NodeRow], node: &Id, status: &Name) -> Result<usize, Refusal>
    ensures place { MatchResult result
        (λ place. position (λ r. bytes_eq r.id node.now) rows.now ≡ Some place) (λ _. Unit {0}) }
    ensures refusal { MatchResult result
        (λ _. edit.refusal_of (Edit.SetStatus node.now status.now) rows.now ≡ None)
        (λ e. edit.refusal_of (Edit.SetStatus node.now status.now) rows.now ≡ Some e) }
{
    let place = known_node(rows, node)?;
    if is_reserved(status) {
        return Err(Refusal::ReservedStatus);
    }
    Ok(place)
}
