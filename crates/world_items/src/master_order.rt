use ticket_tree::{Duplicate, Edit, Id, Ids, SpawnId};

/// What a master is told to do.
#[derive(Clone, Drop)]
pub enum Order {
    /// To change its ticket.
    Edit(Edit),
    /// To send a node with all below it to a worker, with copies of these resources that may be
    /// changed.
    Spawn { node: Id, worker: Id, rw: Ids },
    /// To send the part of a spawn once more.
    Resend(SpawnId),
    /// To ask the worker of a spawn to give it up.
    Withdraw(SpawnId),
}

impl Duplicate for Order {
    ghost use Rattle.std.proofs.Common.{rules};

    ghost equal = { Prim.search rules };
}
