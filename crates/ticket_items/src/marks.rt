use crate::duplicate::Duplicate;
use crate::items::{Ids, ResMarks};

/// What a ticket shows of the spawns that are out: the nodes that were spawned, and what each
/// resource shows that was copied (JDF 1.5, 4.4).
#[derive(Clone, Drop)]
pub struct Marks {
    /// The nodes that show the Status `Spawned`.
    pub nodes: Ids,
    pub resources: ResMarks,
}

impl Duplicate for Marks {
    ghost use Rattle.std.proofs.Common.{rules};

    ghost equal = { Prim.search rules };
}
