/// What a document is.
#[derive(Clone, Copy, Debug, PartialEq, Eq)]
pub enum Kind {
    /// A ticket.
    Ticket,
    /// The input of `edit`.
    Edits,
    /// An order, to a master or to a worker.
    Order,
    /// A message.
    Message,
    /// The input of `world`.
    Script,
    /// The input of `new`.
    Opening,
    /// What a file holds that keeps a controller.
    State,
}
