use crate::duplicate::Duplicate;
use crate::id::Id;
use crate::items::SpawnIds;
use crate::spawn_status::SpawnStatus;

/// What a resource shows of the spawns that copied it (JDF 1.5, 3.8: its SpawnStatus and SpawnIDs).
#[derive(Clone, Drop)]
pub struct ResMark {
    /// The resource's id.
    pub id: Id,
    pub status: SpawnStatus,
    pub spawn_ids: SpawnIds,
}

impl Duplicate for ResMark {
    ghost use Rattle.std.proofs.Common.{rules};

    ghost equal = { Prim.search rules };
}
