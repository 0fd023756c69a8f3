use controller::Reply;
use ticket_tree::Refusal;

/// What an order gives out once its step is saved.
#[derive(Drop)]
pub struct OrderBytes {
    /// What the controller replies, or why it refused the order.
    pub reply: Result<Reply, Refusal>,
    /// The text of the message that goes out, if one does.
    pub message: Option<Vec<u8>>,
}
