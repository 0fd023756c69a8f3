use ticket_tree::{Id, Ids, Items, Ticket};
use world_items::Event;

/// A shop, and what happens in it.
#[derive(Drop)]
pub struct Script {
    /// The master's name.
    pub master: Id,
    /// The names of its workers.
    pub workers: Ids,
    /// The master's ticket, of which nothing is out.
    pub ticket: Ticket,
    /// What happens, in turn.
    pub events: Items<Event>,
}
