use crate::duplicate::Duplicate;
use crate::id::Id;
use crate::usage::Usage;

/// A link of a node to a resource (JDF 1.5, 3.9). The resource stands in the pool of the node or of
/// a node above it.
#[derive(Clone, Drop, PartialEq)]
pub struct Link {
    /// The resource's id.
    pub rref: Id,
    pub usage: Usage,
}

impl Duplicate for Link {
    ghost use Rattle.std.proofs.Common.{rules};

    ghost equal = { Prim.search rules };
}
