//! The part that goes out with a spawn.

ghost use Rattle.std.specs.Prelude.{◌≡◌, ◌-◌, [], true, map, take, IfOk, IfErr};
ghost use Rattle.ticket_tree.specs.Part.{part_copy};
ghost use Rattle.ticket_rows.specs.Copies.{with_copies};
ghost use Rattle.ticket_rows.specs.Ticket.{IsValid};
ghost use Rattle.spawn.specs.Parts as parts;
ghost use Rattle.spawn.specs.Records.{IsGood, is_out};

use crate::claims::above::ancestors_of;
use crate::parts::part_rows::{lifted_rows, resources_to_change};
use crate::records::spawn_rec::SpawnRec;
use std::alloc::Global;
use ticket_tree::{At, Duplicate, Items, Part, Refusal, Ticket};

/// The part of a spawn of the node at which the ticket is seen.
fn part_at(alloc: Global, ticket: &Ticket, spawn: &SpawnRec, at: &At<'_>) -> Result<Part, Refusal>
    requires valid { IsValid ticket.now.rows }
    requires good { IsGood ticket.now.rows spawn.now }
    requires part { IsValid
        (with_copies (map (parts.lifted_row (at.now.depth - 1)) at.now.below)
        (parts.resources_among spawn.now.rw ticket.now.rows) spawn.now.ro) }
    ensures ok { IfOk result (λ p. p ≡ part_copy ticket.now.job_id spawn.now.id
        (map parts.as_ancestor (take (at.now.depth - 1) (parts.way_from [] at.now.front)))
        (map (parts.lifted_row (at.now.depth - 1)) at.now.below)
        (parts.resources_among spawn.now.rw ticket.now.rows) spawn.now.ro) }
    ensures memory { IfErr result (λ e. e ≡ Refusal.Memory) }
{
    let ancestors = ancestors_of(alloc, at)?;
    let below = lifted_rows(alloc, &at.below, at.levels())?;
    let rw = resources_to_change(alloc, ticket, spawn)?;
    let ro = spawn.ro.copy(alloc)?;
    let job = ticket.job().copy(alloc)?;
    let (ancestors, rw) = (Items::new(ancestors), Items::new(rw));
    Ok(Part::from_valid(job, spawn.id, ancestors, below, rw, ro))
}

/// The part of a spawn that is out (JDF 1.5, 4.4): the ticket's rows of the node and below it, and
/// of the resources that may be changed; and the copies that may be read alone, as they were when
/// it went out. While no row of what was spawned changes and none is added there, it is the same
/// part each time. The record is good in the ticket. Refuses `Memory` alone.
pub fn part_for(alloc: Global, ticket: &Ticket, spawn: &SpawnRec) -> Result<Part, Refusal>
    // Wants: a good record that is out.
    requires out { is_out spawn.now ≡ true }
    requires good { IsGood ticket.now.rows spawn.now }
    ensures ok { IfOk result (λ p. p ≡ parts.part_for ticket.now spawn.now) }
    ensures memory { IfErr result (λ e. e ≡ Refusal.Memory) }
{
    match ticket.at(&spawn.node) {
        None => Err(Refusal::UnknownNode),
        Some(at) => part_at(alloc, ticket, spawn, &at),
    }
}
