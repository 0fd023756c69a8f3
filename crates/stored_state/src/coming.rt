use controller::Message;
use ticket_tree::Refusal;

/// What comes to a controller (our own).
#[derive(Drop)]
pub enum Coming {
    /// A message.
    Message(Message),
    /// The text of an order.
    Order(Vec<u8>),
    /// Bytes that are neither, and what they are refused for.
    Neither(Refusal),
}
