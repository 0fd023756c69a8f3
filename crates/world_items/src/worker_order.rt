use crate::end::End;
use ticket_tree::{Duplicate, Edit, SpawnId};

/// What a worker is told to do with the part of a spawn.
#[derive(Clone, Drop)]
pub enum Order {
    /// To change it.
    Edit(SpawnId, Edit),
    /// To end the work and give it back.
    Finish(SpawnId, End),
    /// To give it back once more.
    Resend(SpawnId),
}

impl Order {
    ghost use Rattle.std.specs.Prelude.{◌≡◌};
    ghost use Rattle.world_items.specs.WorkerOrder as orders;

    /// The spawn that it is about.
    pub fn spawn(&self) -> SpawnId
        // Proved: An order to a worker tells the spawn that it is about.
        ensures { result ≡ orders.spawn_of_order self.now }
    {
        match self {
            Order::Edit(spawn, _) => *spawn,
            Order::Finish(spawn, _) => *spawn,
            Order::Resend(spawn) => *spawn,
        }
    }
}

impl Duplicate for Order {
    ghost use Rattle.std.proofs.Common.{rules};

    ghost equal = { Prim.search rules };
}
