use crate::message::Message;
use ticket_tree::Refusal;
use world_items::Reply;

/// What came of a message.
#[derive(Drop)]
pub struct Outcome {
    /// What it was taken as, or why it was refused.
    pub reply: Result<Reply, Refusal>,
    /// The answer to a command, refused or not. An answer has none.
    pub answer: Option<Message>,
}
