use controller::Reply;
use ticket_tree::{Id, Refusal};

/// What a message or an order gives out once its step is saved.
#[derive(Drop)]
pub struct TakenBytes {
    /// Who sent the message. An order has no sender.
    pub sender: Option<Id>,
    /// What is replied, or why the controller refused it.
    pub reply: Result<Reply, Refusal>,
    /// The text that goes out: that of the answer to a command, refused or not, or of the message
    /// that an order sends. An answer has none.
    pub answer: Option<Vec<u8>>,
}
