use crate::body::Body;
use ticket_tree::{Duplicate, Id};

/// A message from one controller to another.
#[derive(Clone, Drop)]
pub struct Message {
    pub sender: Id,
    pub receiver: Id,
    /// When it was sent, in seconds since 1970.
    pub at: u64,
    pub body: Body,
}

impl Duplicate for Message {
    ghost use Rattle.std.proofs.Common.{rules};

    ghost equal = { Prim.search rules };
}
