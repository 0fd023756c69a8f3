use crate::queue_status::QueueStatus;
use world_items::Reply;

/// What is told of a message that isn't refused.
#[derive(Clone, Copy)]
pub struct Taken {
    /// What it is taken as.
    pub reply: Reply,
    /// What a command is told: the Status of its queue entry, or the number of a refusal.
    pub response: Result<QueueStatus, u16>,
}
