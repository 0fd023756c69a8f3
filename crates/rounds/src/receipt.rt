use controller::Reply;
use ticket_items::Id;

/// What a message was taken as, and from whom.
#[derive(Drop)]
pub struct Receipt {
    pub reply: Reply,
    /// Who sent it.
    pub sender: Id,
}
