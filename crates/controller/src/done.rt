use crate::message::Message;
use world_items::Reply;

/// What came of an order that wasn't refused.
#[derive(Drop)]
pub struct Done {
    pub reply: Reply,
    /// What goes out, if anything does.
    pub message: Option<Message>,
}
