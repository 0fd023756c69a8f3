//! Where the row stands that an edit changes, or why the edit is refused: the first reason that
//! holds.

ghost use Rattle.std.specs.Prelude.{◌≡◌, None, Some, MatchResult, nat_lt, []};
ghost use Rattle.std.specs.List.{list_any, position};
ghost use Rattle.std.specs.Str.{bytes_eq};
ghost use Rattle.ticket_rows.specs.Edit as edit;
ghost use Rattle.ticket_rows.specs.Ticket.{IsValid, max_depth};

use crate::indexed_rows::IndexedRows;
use crate::rows::{MAX_DEPTH, is_reserved};
use ticket_items::{Edit, Id, Link, Name, NodeRow, Refusal, Resource};

/// The row of a node, or `UnknownNode`.
pub fn known_node(rows: &IndexedRows, node: &Id) -> Result<usize, Refusal>
    ensures place { MatchResult result
        (λ place. position (λ r. bytes_eq r.id node.now) rows.now ≡ Some place) (λ _. Unit {0}) }
    ensures refusal { MatchResult result (λ _. edit.node_refusal node.now rows.now ≡ None)
        (λ e. edit.node_refusal node.now rows.now ≡ Some e) }
{
    match rows.place(node) {
        Some(place) => Ok(place),
        None => Err(Refusal::UnknownNode),
    }
}

/// The row of the node in whose pool a resource is, or `UnknownResource`.
pub fn known_home(rows: &IndexedRows, resource: &Id) -> Result<usize, Refusal>
    requires { IsValid rows.now }
    ensures place { MatchResult result
        (λ place. position (λ r. list_any (λ x. bytes_eq x.id resource.now) r.resources) rows.now
        ≡ Some place) (λ _. Unit {0}) }
    ensures refusal { MatchResult result (λ _. edit.resource_refusal resource.now rows.now ≡ None)
        (λ e. edit.resource_refusal resource.now rows.now ≡ Some e) }
{
    match rows.home_place(resource) {
        Some(home) => Ok(home),
        None => Err(Refusal::UnknownResource),
    }
}

/// The row of a node that gets a Status, or `UnknownNode`, then `ReservedStatus`.
pub fn open_to_status(rows: &IndexedRows, node: &Id, status: &Name) -> Result<usize, Refusal>
    ensures place { MatchResult result
        (λ place. position (λ r. bytes_eq r.id node.now) rows.now ≡ Some place) (λ _. Unit {0}) }
    ensures refusal { MatchResult result
        (λ _. edit.refusal_of (Edit.SetStatus node.now status.now) rows.now ≡ None)
        (λ e. edit.refusal_of (Edit.SetStatus node.now status.now) rows.now ≡ Some e) }
{
    let place = known_node(rows, node)?;
    if is_reserved(status) {
        return Err(Refusal::ReservedStatus);
    }
    Ok(place)
}

/// Whether a child of the node stands no deeper than 32.
fn has_room(row: &NodeRow) -> bool
    ensures { result ≡ nat_lt row.now.depth max_depth }
{
    row.depth < MAX_DEPTH
}

/// The row of a node that gets a child, or `UnknownNode`, `ReservedStatus`, `DuplicateId`,
/// `TooDeep`.
pub fn open_to_child(
    rows: &IndexedRows,
    node: &Id,
    id: &Id,
    status: &Name,
) -> Result<usize, Refusal>
    ensures place { MatchResult result
        (λ place. position (λ r. bytes_eq r.id node.now) rows.now ≡ Some place) (λ _. Unit {0}) }
    ensures refusal { MatchResult result
        (λ _. edit.refusal_of (Edit.AddNode node.now id.now [] [] status.now) rows.now ≡ None)
        (λ e. edit.refusal_of (Edit.AddNode node.now id.now [] [] status.now) rows.now ≡ Some e) }
{
    let place = open_to_status(rows, node, status)?;
    if rows.has_id(id) {
        return Err(Refusal::DuplicateId);
    }
    if !has_room(rows.at(place)) {
        return Err(Refusal::TooDeep);
    }
    Ok(place)
}

/// The row of a node that gets a resource, or `UnknownNode`, then `DuplicateId`.
pub fn open_to_resource(
    rows: &IndexedRows,
    node: &Id,
    resource: &Resource,
) -> Result<usize, Refusal>
    ensures place { MatchResult result
        (λ place. position (λ r. bytes_eq r.id node.now) rows.now ≡ Some place) (λ _. Unit {0}) }
    ensures refusal { MatchResult result
        (λ _. edit.refusal_of (Edit.AddResource node.now resource.now) rows.now ≡ None)
        (λ e. edit.refusal_of (Edit.AddResource node.now resource.now) rows.now ≡ Some e) }
{
    let place = known_node(rows, node)?;
    if rows.has_id(&resource.id) {
        return Err(Refusal::DuplicateId);
    }
    Ok(place)
}

/// The row of a node that gets a link, or `UnknownNode`, `UnknownResource`, `UnresolvedLink`.
pub fn open_to_link(rows: &IndexedRows, node: &Id, link: &Link) -> Result<usize, Refusal>
    requires { IsValid rows.now }
    ensures place { MatchResult result
        (λ place. position (λ r. bytes_eq r.id node.now) rows.now ≡ Some place) (λ _. Unit {0}) }
    ensures refusal { MatchResult result
        (λ _. edit.refusal_of (Edit.AddLink node.now link.now) rows.now ≡ None)
        (λ e. edit.refusal_of (Edit.AddLink node.now link.now) rows.now ≡ Some e) }
{
    let place = known_node(rows, node)?;
    let home = known_home(rows, &link.rref)?;
    if !rows.is_below(node, &rows.at(home).id) {
        return Err(Refusal::UnresolvedLink);
    }
    Ok(place)
}
