use crate::records::phase::Phase;
use ticket_tree::{Duplicate, Id, Ids, Resources, SpawnId};

/// What the owner of a ticket remembers of a spawn (JDF 1.5, 4.4). The record of a spawn that was
/// merged or withdrawn keeps its fields.
#[derive(Clone, Drop)]
pub struct SpawnRec {
    pub id: SpawnId,
    /// The node that was spawned, with all below it.
    pub node: Id,
    /// The controller to which it went.
    pub worker: Id,
    /// When, in seconds since 1970.
    pub at: u64,
    /// The resources of which copies were given that may be changed, in ticket order.
    pub rw: Ids,
    /// The copies that were given to be read alone, as they stood then, in ticket order.
    pub ro: Resources,
    pub phase: Phase,
}

impl SpawnRec {
    ghost use Rattle.std.specs.Prelude.{◌≡◌};
    ghost use Rattle.spawn.specs.Records as records;

    /// Whether its part is with another controller.
    pub fn is_out(&self) -> bool
        ensures { result ≡ records.is_out self.now }
    {
        match self.phase {
            Phase::Out => true,
            Phase::Merged => false,
            Phase::Withdrawn => false,
        }
    }
}

impl Duplicate for SpawnRec {
    ghost use Rattle.std.proofs.Common.{rules};

    ghost equal = { Prim.search rules };
}
