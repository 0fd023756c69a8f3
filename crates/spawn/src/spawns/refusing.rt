//! Why a spawn is refused: the first reason that holds.

ghost use Rattle.std.specs.Prelude.{◌≡◌, ◌∷◌, [], true, Some, None, is_some};
ghost use Rattle.std.specs.Prelude.{IfSome, MatchResult};
ghost use Rattle.std.specs.List.{list_all};
ghost use Rattle.ticket_rows.specs.Homes.{has_resource};
ghost use Rattle.ticket_items.specs.Ids.{mem};
ghost use Rattle.ticket_rows.specs.Place.{node_places, places, up};
ghost use Rattle.ticket_rows.specs.Ticket.{IsValid, first_of, has_node, unless};
ghost use Rattle.ticket_tree.specs.At.{rows_below};
ghost use Rattle.plain_shop.specs.Claim.{ids_of, linked_outside};
ghost use Rattle.spawn.specs.Holdings.{IsTable};
ghost use Rattle.spawn.specs.Spawning as spawning;

use crate::claims::links_outside::is_linked_outside;
use crate::records::spawn_rec::SpawnRec;
use crate::tables::holder_source::HolderSource;
use crate::tables::holders::Holders;
use ticket_tree::{At, Id, Refusal, Rows, SpawnId, Ticket};

/// The rows of a node that stands below another and of those below it, or `UnknownNode`, then
/// `IsRoot`.
fn spawnable<'a>(ticket: &'a Ticket, node: &Id) -> Result<Rows<'a>, Refusal>
    ensures refusal { MatchResult result
        (λ rows. (rows ≡ rows_below ticket.now.rows node.now)
        × (has_node ticket.now.rows node.now ≡ true)
        × (is_some (up (node_places ticket.now.rows) node.now) ≡ true))
        (λ e. first_of
        (unless (has_node ticket.now.rows node.now) Refusal.UnknownNode
        ∷ unless (is_some (up (node_places ticket.now.rows) node.now)) Refusal.IsRoot
        ∷ []) ≡ Some e) }
    ensures valid { IsValid ticket.now.rows }
{
    let Some(at) = ticket.at(node) else {
        return Err(Refusal::UnknownNode);
    };
    if at.depth <= 1 {
        return Err(Refusal::IsRoot);
    }
    let At { below, .. } = at;
    Ok(below)
}

/// Whether each id is a resource's.
pub(crate) fn are_resources(ticket: &Ticket, ids: &[Id]) -> bool
    ensures { result ≡ list_all (has_resource ticket.now.rows) ids.now }
{
    ids.iter().all(|id| ticket.home_of(id).is_some())
}

/// Whether each id is one of a resource that is linked outside the node, below which are these
/// rows.
fn are_linked_outside(ticket: &Ticket, node: &Id, below: &Rows<'_>, ids: &[Id]) -> bool
    requires valid { IsValid ticket.now.rows }
    requires known { has_node ticket.now.rows node.now ≡ true }
    requires rows { below.now ≡ rows_below ticket.now.rows node.now }
    ensures { result ≡ list_all
        (λ x. mem x (ids_of (linked_outside (places ticket.now.rows) node.now))) ids.now }
{
    for id in ids {
        if !is_linked_outside(ticket, node, below, id) {
            return false;
        }
    }
    true
}

/// Whether the master holds all that a spawn would claim, or `NotHeld` with the spawn that holds
/// the first that it doesn't.
fn check_held(
    ticket: &Ticket,
    records: &[SpawnRec],
    holders: Option<&Holders>,
    node: &Id,
    rw: &[Id],
) -> Result<(), Refusal>
    requires known { has_node ticket.now.rows node.now ≡ true }
    requires linked { list_all
        (λ x. mem x (ids_of (linked_outside (places ticket.now.rows) node.now))) rw.now ≡ true }
    requires table { IfSome holders (λ h. IsTable ticket.now.rows records.now h.now) }
    ensures { MatchResult result
        (λ _. spawning.not_held (places ticket.now.rows) records.now node.now rw.now ≡ None)
        (λ e. spawning.not_held (places ticket.now.rows) records.now node.now rw.now ≡ Some e) }
{
    let known = HolderSource {
        ticket,
        records,
        holders,
    };
    match known.first_holding(node, rw) {
        None => Ok(()),
        Some(spawn) => Err(Refusal::NotHeld(spawn)),
    }
}

/// What `may_spawn` refuses, which is told faster where it is known who holds what.
pub(crate) fn check_spawn(
    ticket: &Ticket,
    records: &[SpawnRec],
    holders: Option<&Holders>,
    number: u32,
    node: &Id,
    rw: &[Id],
) -> Result<(), Refusal>
    requires table { IfSome holders (λ h. IsTable ticket.now.rows records.now h.now) }
    ensures { MatchResult result
        (λ _. spawning.spawn_refusal ticket.now.rows records.now number node.now rw.now ≡ None)
        (λ e. spawning.spawn_refusal ticket.now.rows records.now number node.now rw.now ≡ Some e) }
{
    let below = spawnable(ticket, node)?;
    if !are_resources(ticket, rw) {
        return Err(Refusal::UnknownResource);
    }
    if !are_linked_outside(ticket, node, &below, rw) {
        return Err(Refusal::NotLinked);
    }
    check_held(ticket, records, holders, node, rw)?;
    SpawnId::new(number)?;
    Ok(())
}

/// Why `spawn` would refuse a spawn of a node with copies of these resources that may be changed,
/// memory aside: the first of `UnknownNode`, `IsRoot` (our own), `UnknownResource`,
/// `NotLinked` (a resource that no node there links, or that is at home there; JDF 1.5, 4.4),
/// `NotHeld` with the spawn that holds the first of the claim, in ticket order, that the master
/// doesn't hold, and `TooManySpawns` (a number that isn't one of 1 to 999,999,999; our own). Needs
/// no memory.
pub fn may_spawn(
    ticket: &Ticket,
    records: &[SpawnRec],
    number: u32,
    node: &Id,
    rw: &[Id],
) -> Result<(), Refusal>
    ensures { MatchResult result
        (λ _. spawning.spawn_refusal ticket.now.rows records.now number node.now rw.now ≡ None)
        (λ e. spawning.spawn_refusal ticket.now.rows records.now number node.now rw.now ≡ Some e) }
{
    check_spawn(ticket, records, None, number, node, rw)
}
