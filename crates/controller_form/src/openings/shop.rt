use ticket_tree::{Id, Ids, Ticket};

/// The controllers of a shop, no two of one name, and the ticket of which nothing is out.
#[derive(Drop)]
pub struct Shop {
    /// The master's name.
    pub master: Id,
    /// The names of its workers.
    pub workers: Ids,
    /// The master's ticket.
    pub ticket: Ticket,
}
