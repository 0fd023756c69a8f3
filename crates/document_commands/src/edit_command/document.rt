use ticket_tree::{Edit, Items, Ticket};

/// The input of `edit`: edits to be done to a ticket.
#[derive(Drop)]
pub struct Document {
    /// When the edits are done, in seconds since 1970.
    pub at: u64,
    pub edits: Items<Edit>,
    pub ticket: Ticket,
}
