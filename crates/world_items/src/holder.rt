ghost use Rattle.std.specs.Prelude.{◌≡◌};
ghost use Rattle.world_items.specs.Holder as holders;

use ticket_tree::SpawnId;

/// Who may change a node or a resource.
#[derive(Clone, Copy, PartialEq, Eq)]
pub enum Holder {
    Master,
    /// The controller to which this spawn went.
    Spawn(SpawnId),
}

impl Holder {
    /// The spawn, if it isn't the master.
    pub fn as_spawn(self) -> Option<SpawnId>
        // Proved: A holder is the master or a spawn.
        ensures { result ≡ holders.as_spawn self }
    {
        match self {
            Holder::Master => None,
            Holder::Spawn(spawn) => Some(spawn),
        }
    }
}
