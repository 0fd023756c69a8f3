use crate::duplicate::Duplicate;
use crate::id::Id;
use crate::items::Ids;
use crate::name::Name;
use crate::text::Text;

/// What happened to a node (JDF 1.5, 3.11). Each audit has its time, in seconds since 1970. Audits
/// are never taken out.
#[derive(Clone, Drop, PartialEq)]
pub enum Audit {
    /// A note of a person or a device.
    Notification {
        at: u64,
        text: Text,
    },
    /// A node below was given to another controller, in the Status that it had, with resources that
    /// the controller may read alone and others that it may change.
    Spawned {
        at: u64,
        jref: Id,
        spawn_id: Id,
        ro: Ids,
        rw: Ids,
        status: Name,
    },
    /// A node below came back, and these resources with it.
    Merged {
        at: u64,
        jref: Id,
        merge_id: Id,
        overwritten: Ids,
    },
}

impl Duplicate for Audit {
    ghost use Rattle.std.proofs.Common.{rules};

    ghost equal = { Prim.search rules };
}
