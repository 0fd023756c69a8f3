use crate::command::Command;
use crate::queue_status::QueueStatus;
use ticket_tree::{Duplicate, Part, SpawnId};

/// What a message says.
#[derive(Clone, Drop)]
pub enum Body {
    /// The part of a spawn goes out.
    Submit(Part),
    /// The part of a spawn comes back.
    Return(Part),
    /// The worker of a spawn is to give it up.
    Abort(SpawnId),
    /// A command of a spawn was taken, and this is the Status of its queue entry; or it was
    /// refused, for the refusal of this number.
    Answer {
        of: Command,
        spawn_id: SpawnId,
        result: Result<QueueStatus, u16>,
    },
}

impl Duplicate for Body {
    ghost use Rattle.std.proofs.Common.{rules};

    ghost equal = { Prim.search rules };
}
