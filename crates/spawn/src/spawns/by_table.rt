//! Spawning beside the table of holders.

ghost use Rattle.spawn.specs.Holdings.{IsTable};
ghost use Rattle.spawn.specs.Spawning as spawning;
ghost use Rattle.spawn.specs.Spawning.{spawn_refusal};

use crate::records::spawn_rec::SpawnRec;
use crate::spawns::refusing::check_spawn;
use crate::spawns::spawning::spawn_free;
use crate::tables::holders::Holders;
use std::alloc::Global;
use ticket_tree::{Id, Ids, Part, Refusal, SpawnId, Ticket};

/// Spawns a node as `spawn` does, where these hold what stands in the ticket: the spawn then holds
/// what it claims. That the master holds the claim is told without a walk over the records.
pub fn spawn_by_table(
    alloc: Global,
    ticket: &mut Ticket,
    records: &mut Vec<SpawnRec>,
    holders: &mut Holders,
    number: u32,
    node: Id,
    worker: Id,
    rw: Ids,
    at: u64,
) -> Result<(SpawnId, Part), Refusal>
    // Wants: the table of these records.
    requires table { IsTable ticket.old.rows records.old.items holders.old }
    // Proved: A spawn beside the table is the same spawn, and leaves the table that of what it
    // made, or of what it left.
    // By `spawns`, `table`.
    ensures spawns { spawning.Spawns
        (spawn_refusal ticket.old.rows records.old.items number node rw)
        (spawning.new_record ticket.old.rows number node worker rw at)
        ticket.old records.old.items result ticket.new records.new.items }
    ensures table { IsTable ticket.new.rows records.new.items holders.new }
{
    let others = records.as_slice();
    check_spawn(ticket, others, Some(holders), number, &node, rw.as_slice())?;
    spawn_free(
        alloc, ticket, records, holders, number, node, worker, rw, at,
    )
}
