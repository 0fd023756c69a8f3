//! Spawning a node.

ghost use Rattle.std.specs.Prelude.{◌≡◌, ◌-◌, true, length, map, slice_get, Some, None, is_some};
ghost use Rattle.std.specs.Prelude.{IfOk, IfErr, OnOk, OnErr};
ghost use Rattle.std.specs.Option.{option_map};
ghost use Rattle.ticket_rows.specs.OneRow.{rows_with_audit};
ghost use Rattle.ticket_rows.specs.Place.{node_places, up};
ghost use Rattle.ticket_rows.specs.Ticket.{IsValid, has_node};
ghost use Rattle.spawn.specs.Holdings.{IsFree, IsGiven, IsSame, claims};
ghost use Rattle.spawn.specs.Parts as parts;
ghost use Rattle.spawn.specs.Records.{IsGood, is_out};
ghost use Rattle.spawn.specs.Spawning as spawning;
ghost use Rattle.spawn.specs.Spawning.{spawn_refusal};

use crate::claims::copies::copies_at;
use crate::parts::spawned_part::part_for;
use crate::records::phase::Phase;
use crate::records::spawn_rec::SpawnRec;
use crate::spawns::refusing::may_spawn;
use crate::tables::holders::Holders;
use std::alloc::{AllocError, Global};
use ticket_tree::{
    Ancestor, Audit, Duplicate, Id, Ids, Items, Part, Refusal, Resource, SpawnId, Ticket,
};

/// The record of a new spawn of a node that is there.
fn new_record(
    alloc: Global,
    ticket: &Ticket,
    id: SpawnId,
    node: Id,
    worker: Id,
    rw: &[Id],
    at: u64,
) -> Result<SpawnRec, Refusal>
    requires known { has_node ticket.now.rows node ≡ true }
    ensures ok { IfOk result (λ r. r
        ≡ spawning.new_record ticket.now.rows id node worker rw.now at) }
    ensures valid { IsValid ticket.now.rows }
    ensures memory { IfErr result (λ e. e ≡ Refusal.Memory) }
{
    let Some(here) = ticket.at(&node) else {
        return Err(Refusal::UnknownNode);
    };
    let copies = copies_at(alloc, &here, rw)?;
    Ok(SpawnRec {
        id,
        node,
        worker,
        at,
        rw: Items::new(copies.rw),
        ro: Items::new(copies.ro),
        phase: Phase::Out,
    })
}

/// The ids of resources, in order.
fn ids_of(alloc: Global, resources: &[Resource]) -> Result<Ids, AllocError>
    ensures { IfOk result (λ ids. ids ≡ map (λ x. x.id) resources.now) }
{
    let mut ids = Vec::with_capacity(alloc, resources.len())?;
    for resource in resources {
        ids.push(resource.id.copy(alloc)?)?;
    }
    Ok(Items::new(ids))
}

/// The audit that tells of a spawn of a node that is there.
fn spawned_audit(alloc: Global, ticket: &Ticket, spawn: &SpawnRec) -> Result<Audit, Refusal>
    requires known { has_node ticket.now.rows spawn.now.node ≡ true }
    ensures ok { IfOk result (λ a. a ≡ spawning.spawned_audit ticket.now.rows spawn.now) }
    ensures memory { IfErr result (λ e. e ≡ Refusal.Memory) }
{
    let Some(row) = ticket.node(&spawn.node) else {
        return Err(Refusal::UnknownNode);
    };
    Ok(Audit::Spawned {
        at: spawn.at,
        jref: spawn.node.copy(alloc)?,
        spawn_id: spawn.id.to_id(alloc)?,
        ro: ids_of(alloc, spawn.ro.as_slice())?,
        rw: spawn.rw.copy(alloc)?,
        status: row.status.copy(alloc)?,
    })
}

/// The id of the last of some ancestors.
fn parent_in<'a>(ancestors: &'a [Ancestor]) -> &'a Id
    requires { is_some (slice_get ancestors.now (length ancestors.now - 1)) ≡ true }
    ensures { option_map (λ a. a.node_id) (slice_get ancestors.now (length ancestors.now - 1))
        ≡ Some result.now }
{
    match ancestors.last() {
        None => unreachable!(),
        Some(parent) => &parent.node_id,
    }
}

/// Puts the audit that tells of a spawn last at the parent of its node.
fn tell(alloc: Global, ticket: &mut Ticket, spawn: &SpawnRec, parent: &Id) -> Result<(), Refusal>
    requires known { has_node ticket.old.rows spawn.now.node ≡ true }
    requires parent { has_node ticket.old.rows parent.now ≡ true }
    ensures ok { OnOk result (ticket.new ≡ record ticket.old {
      rows = rows_with_audit parent.now
          (spawning.spawned_audit ticket.old.rows spawn.now) ticket.old.rows;
    }) }
    ensures err { OnErr result (ticket.new ≡ ticket.old) }
    ensures memory { IfErr result (λ e. e ≡ Refusal.Memory) }
{
    let audit = spawned_audit(alloc, ticket, spawn)?;
    ticket.append(alloc, parent, audit)
}

/// The part of a spawn of a node that stands below another; the ticket then tells of the spawn.
fn send_out(alloc: Global, ticket: &mut Ticket, spawn: &SpawnRec) -> Result<Part, Refusal>
    requires valid { IsValid ticket.old.rows }
    requires out { is_out spawn.now ≡ true }
    requires good { IsGood ticket.old.rows spawn.now }
    requires known { has_node ticket.old.rows spawn.now.node ≡ true }
    requires parent { is_some (up (node_places ticket.old.rows) spawn.now.node) ≡ true }
    ensures ticket { OnOk result (ticket.new ≡ spawning.job_after_spawn ticket.old spawn.now) }
    ensures part { IfOk result (λ p. p ≡ parts.part_for ticket.old spawn.now) }
    ensures err { OnErr result (ticket.new ≡ ticket.old) }
    ensures memory { IfErr result (λ e. e ≡ Refusal.Memory) }
{
    let part = part_for(alloc, ticket, spawn)?;
    let parent = parent_in(part.ancestors());
    tell(alloc, ticket, spawn, parent).and(Ok(part))
}

/// Gives a spawn of a node that stands below another what it claims, and answers its part; the
/// ticket then tells of the spawn.
fn hold(
    alloc: Global,
    ticket: &mut Ticket,
    holders: &mut Holders,
    spawn: &SpawnRec,
) -> Result<Part, Refusal>
    requires valid { IsValid ticket.old.rows }
    requires out { is_out spawn.now ≡ true }
    requires good { IsGood ticket.old.rows spawn.now }
    requires known { has_node ticket.old.rows spawn.now.node ≡ true }
    requires parent { is_some (up (node_places ticket.old.rows) spawn.now.node) ≡ true }
    requires free { IsFree (claims ticket.old.rows spawn.now) holders.old }
    ensures ticket { OnOk result (ticket.new ≡ spawning.job_after_spawn ticket.old spawn.now) }
    ensures part { IfOk result (λ p. p ≡ parts.part_for ticket.old spawn.now) }
    ensures held { OnOk result (IsGiven (claims ticket.old.rows spawn.now) (Some spawn.now.id)
        holders.old holders.new) }
    ensures ticket_stays { OnErr result (ticket.new ≡ ticket.old) }
    ensures holders_stay { OnErr result (IsSame holders.old holders.new) }
    ensures memory { IfErr result (λ e. e ≡ Refusal.Memory) }
{
    holders.take(alloc, ticket, spawn)?;
    match send_out(alloc, ticket, spawn) {
        Ok(part) => Ok(part),
        Err(refusal) => {
            holders.free(ticket, spawn);
            Err(refusal)
        }
    }
}

/// Spawns a node that stands below another by a number, and gives the spawn what it claims, which
/// none holds.
fn enter(
    alloc: Global,
    ticket: &mut Ticket,
    records: &mut Vec<SpawnRec>,
    holders: &mut Holders,
    id: SpawnId,
    node: Id,
    worker: Id,
    rw: &[Id],
    at: u64,
) -> Result<(SpawnId, Part), Refusal>
    requires known { has_node ticket.old.rows node ≡ true }
    requires parent { is_some (up (node_places ticket.old.rows) node) ≡ true }
    requires free { IsFree (claims ticket.old.rows
        (spawning.new_record ticket.old.rows id node worker rw.now at)) holders.old }
    ensures spawns { spawning.Spawns None
        (spawning.new_record ticket.old.rows id node worker rw.now at)
        ticket.old records.old.items result ticket.new records.new.items }
    ensures held { OnOk result (IsGiven (claims ticket.old.rows
        (spawning.new_record ticket.old.rows id node worker rw.now at)) (Some id)
        holders.old holders.new) }
    ensures holders_stay { OnErr result (IsSame holders.old holders.new) }
{
    let before = records.len();
    records.push(new_record(alloc, ticket, id, node, worker, rw, at)?)?;
    match hold(alloc, ticket, holders, &records[before]) {
        Ok(part) => Ok((id, part)),
        Err(refusal) => {
            records.truncate(before);
            Err(refusal)
        }
    }
}

/// Spawns a node that nothing is against, as `spawn` does, and gives the spawn what it claims,
/// which none holds. Refuses `Memory` alone, and then changes nothing.
pub(crate) fn spawn_free(
    alloc: Global,
    ticket: &mut Ticket,
    records: &mut Vec<SpawnRec>,
    holders: &mut Holders,
    number: u32,
    node: Id,
    worker: Id,
    rw: Ids,
    at: u64,
) -> Result<(SpawnId, Part), Refusal>
    requires refusal { spawn_refusal ticket.old.rows records.old.items number node rw ≡ None }
    requires free { IsFree (claims ticket.old.rows
        (spawning.new_record ticket.old.rows number node worker rw at)) holders.old }
    ensures spawns { spawning.Spawns None
        (spawning.new_record ticket.old.rows number node worker rw at)
        ticket.old records.old.items result ticket.new records.new.items }
    ensures held { OnOk result (IsGiven (claims ticket.old.rows
        (spawning.new_record ticket.old.rows number node worker rw at)) (Some number)
        holders.old holders.new) }
    ensures holders_stay { OnErr result (IsSame holders.old holders.new) }
{
    let id = SpawnId::new(number)?;
    enter(
        alloc,
        ticket,
        records,
        holders,
        id,
        node,
        worker,
        rw.as_slice(),
        at,
    )
}

/// Spawns a node with all below it to a worker (JDF 1.5, 4.4), at a time in seconds since 1970: the
/// record of the spawn is put last among the records, the `Spawned` audit last at the node's
/// parent, and the part that goes out is answered. Of the resources linked outside the node the
/// copies of these may be changed, taken as a set; the others are copied to be read alone. No
/// record has this number. Refuses what `may_spawn` says, which needs no memory, and then `Memory`.
/// A refusal changes nothing.
pub fn spawn(
    alloc: Global,
    ticket: &mut Ticket,
    records: &mut Vec<SpawnRec>,
    number: u32,
    node: Id,
    worker: Id,
    rw: Ids,
    at: u64,
) -> Result<(SpawnId, Part), Refusal>
    // Proved: Where a spawn isn't refused its record is last, its audit stands at the parent, and
    // nothing else changes; else nothing does.
    // Proved: The record of a spawn is good, and the part is the one made of it.
    // By `part_for`: `ok`, `memory`.
    // Proved: A spawn is refused for its first reason, without memory.
    // By `may_spawn`.
    ensures { spawning.Spawns (spawn_refusal ticket.old.rows records.old.items number node rw)
        (spawning.new_record ticket.old.rows number node worker rw at)
        ticket.old records.old.items result ticket.new records.new.items }
{
    may_spawn(ticket, records.as_slice(), number, &node, rw.as_slice())?;
    // Nobody asks these who holds what.
    let mut holders = Holders::new(alloc);
    spawn_free(
        alloc,
        ticket,
        records,
        &mut holders,
        number,
        node,
        worker,
        rw,
        at,
    )
}
