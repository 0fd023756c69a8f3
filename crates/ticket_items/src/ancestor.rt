use crate::duplicate::Duplicate;
use crate::id::Id;
use crate::name::Name;

/// A node above the root of a part, as the part's AncestorPool tells it (JDF 1.5, 4.4).
#[derive(Clone, Drop)]
pub struct Ancestor {
    pub node_id: Id,
    /// The node's JobPartID.
    pub job_part: Name,
}

impl Duplicate for Ancestor {
    ghost use Rattle.std.proofs.Common.{rules};

    ghost equal = { Prim.search rules };
}
