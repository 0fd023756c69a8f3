use ticket_items::SpawnId;

/// What of a spawn a controller has out: of a master that of a spawn that is out, of a worker that
/// of a part that has ended. Controllers have numbers from 0.
#[derive(Clone, Copy, Debug, PartialEq, Eq, Hash)]
pub struct Thing {
    pub controller: usize,
    pub spawn: SpawnId,
}
