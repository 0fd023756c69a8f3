use controller::Message;
use ticket_items::SpawnId;

/// What is to be done at a controller for something that goes out from it by itself.
#[derive(Drop)]
pub struct Own {
    pub parcel: Parcel,
    pub task: Task,
    /// Until which moment it waits where somebody else has the controller's file locked.
    pub until: u64,
}

/// The part of a spawn that is in flight to its destination.
#[derive(Clone, Copy)]
pub struct Parcel {
    pub spawn: SpawnId,
    /// The number of the destination.
    pub line: usize,
}

/// A step of that.
#[derive(Drop)]
pub enum Task {
    /// The controller is told to send it: this is the text of the order.
    Send(Vec<u8>),
    /// The controller is to take the answer, which refuses it for the refusal of this number, if it
    /// does.
    Take(Message, Option<u16>),
}
