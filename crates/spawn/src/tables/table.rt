//! Who holds what: the one table of holders, by the records of the spawns that are out.

ghost use Rattle.std.specs.Prelude.{◌≡◌};
ghost use Rattle.std.specs.Option.{option_copied};
ghost use Rattle.ticket_items.specs.Ids.{mem};
ghost use Rattle.ticket_rows.specs.Ticket.{IsValid, ids};
ghost use Rattle.spawn.specs.Table as table;

use crate::records::spawn_rec::SpawnRec;
use crate::tables::holding::holding_record;
use ticket_tree::{Id, Ticket};
use world_items::Holder;

/// The node that an id names, or in whose pool the resource is that it names.
fn stand_of<'a>(ticket: &'a Ticket, id: &'a Id) -> Option<&'a Id>
    ensures at { option_copied result ≡ table.stand_of ticket.now.rows id.now }
    ensures valid { IsValid ticket.now.rows }
{
    match ticket.node(id) {
        Some(_) => Some(id),
        None => ticket.home_of(id),
    }
}

/// Whether an id stands in a ticket.
pub(crate) fn stands(ticket: &Ticket, id: &Id) -> bool
    ensures { result ≡ mem id.now (ids ticket.now.rows) }
{
    stand_of(ticket, id).is_some()
}

/// Who holds a node or a resource: the first spawn that is out and claims it, or else the master.
/// `None` where the id is unknown. Needs no memory.
pub fn holder_of(ticket: &Ticket, records: &[SpawnRec], id: &Id) -> Option<Holder>
    // Proved: One table tells who holds an id.
    ensures { result ≡ table.holder_of ticket.now.rows records.now id.now }
{
    let node = stand_of(ticket, id)?;
    match holding_record(ticket, records, node, id) {
        None => Some(Holder::Master),
        Some(spawn) => Some(Holder::Spawn(spawn.id)),
    }
}
