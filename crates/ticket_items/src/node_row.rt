use crate::attrs::Attrs;
use crate::duplicate::Duplicate;
use crate::id::Id;
use crate::items::{Audits, Links, Resources};
use crate::name::Name;

/// One node of a ticket (JDF 1.5, 3.2), and how deep it stands: the root at 1, a child one deeper
/// than its parent, no node deeper than 32.
#[derive(Clone, Drop)]
pub struct NodeRow {
    pub id: Id,
    pub depth: u32,
    /// The node's Type.
    pub kind: Name,
    /// The node's JobPartID.
    pub job_part: Name,
    pub status: Name,
    pub attrs: Attrs,
    /// The node's ResourcePool.
    pub resources: Resources,
    /// The node's ResourceLinkPool.
    pub links: Links,
    /// The node's AuditPool.
    pub audits: Audits,
}

impl Duplicate for NodeRow {
    ghost use Rattle.std.proofs.Common.{rules};

    ghost equal = { Prim.search rules };
}
