//! Whether what spawns claim is apart.

ghost use Rattle.std.specs.Prelude.{◌≡◌, IfOk};
ghost use Rattle.ticket_rows.specs.Place.{places};
ghost use Rattle.ticket_rows.specs.Ticket.{IsValid};
ghost use Rattle.spawn.specs.Stored as stored;

use crate::records::spawn_rec::SpawnRec;
use crate::tables::holders::Holders;
use std::alloc::{AllocError, Global};
use ticket_tree::Ticket;

/// Whether no two spawns that are out claim one node or resource of a ticket (JDF 1.5, 4.4: what
/// was spawned is changed in one place). Refuses for want of memory alone.
pub fn are_apart(alloc: Global, ticket: &Ticket, records: &[SpawnRec]) -> Result<bool, AllocError>
    ensures apart { IfOk result
        (λ apart. apart ≡ stored.are_apart (places ticket.now.rows) records.now) }
    ensures valid { IsValid ticket.now.rows }
{
    Ok(Holders::of(alloc, ticket, records)?.is_some())
}
