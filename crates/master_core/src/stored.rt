//! Whether the parts of a master that were stored are those of one.

ghost use Rattle.std.specs.Prelude.{◌≡◌, is_some, IfOk, IfSome};
ghost use Rattle.ticket_rows.specs.Ticket.{IsValid};
ghost use Rattle.master_core.specs.Master as master;
ghost use Rattle.master_core.specs.Master.{IsInStep};
ghost use Rattle.spawn.specs.Holdings.{IsTable};
ghost use Rattle.master_core.specs.Stored as stored;

use crate::names;
use crate::records::place_of;
use spawn::{Holders, SpawnRec, are_good, stand_in};
use std::alloc::{AllocError, Global};
use ticket_items::is_among;
use ticket_tree::{Id, Ticket};

/// Whether records are numbered from 1 on, in their order.
fn are_numbered(records: &[SpawnRec]) -> bool
    ensures { result ≡ stored.are_numbered 1 records.now }
{
    for (place, record) in records.iter().enumerate() {
        if place_of(record.id) != place {
            return false;
        }
    }
    true
}

/// Whether each spawn went to one of the workers.
fn are_sent(workers: &[Id], records: &[SpawnRec]) -> bool
    ensures { result ≡ stored.are_sent workers.now records.now }
{
    records
        .iter()
        .all(|record| is_among(workers, &record.worker))
}

/// The table of holders of a ticket by these records. `None` where they aren't those of the ticket.
fn holders_by(
    alloc: Global,
    ticket: &Ticket,
    records: &[SpawnRec],
) -> Result<Option<Holders>, AllocError>
    ensures test { IfOk result (λ found. is_some found
        ≡ stored.are_recorded ticket.now records.now) }
    ensures table { IfOk result (λ found. IfSome found
        (λ h. IsTable ticket.now.rows records.now h)) }
    ensures valid { IfOk result (λ found. IfSome found (λ _. IsValid ticket.now.rows)) }
{
    if !are_good(ticket, records) || !stand_in(ticket, records) {
        return Ok(None);
    }
    Holders::of(alloc, ticket, records)
}

/// The table of holders of the master of these parts. `None` where these can't be those of one.
pub fn holders_of(
    alloc: Global,
    name: &Id,
    workers: &[Id],
    ticket: &Ticket,
    records: &[SpawnRec],
) -> Result<Option<Holders>, AllocError>
    ensures test { IfOk result (λ found. is_some found
        ≡ stored.is_master (master.state name.now workers.now ticket.now records.now)) }
    ensures kept { IfOk result (λ found. IfSome found
        (λ h. IsInStep (master.state name.now workers.now ticket.now records.now) h)) }
{
    if !are_numbered(records) || !are_sent(workers, records) {
        return Ok(None);
    }
    if !names::are_apart(alloc, name, workers)? {
        return Ok(None);
    }
    holders_by(alloc, ticket, records)
}
