ghost use Rattle.std.specs.Prelude.{◌≡◌};
ghost use Rattle.ticket_items.specs.SpawnStatus as words;

/// What a resource shows of the spawns that copied it (JDF 1.5, 3.8: its SpawnStatus).
#[derive(Clone, Copy, PartialEq, Eq)]
pub enum SpawnStatus {
    /// No copy of it is out.
    NotSpawned,
    /// Copies of it are out that may be read alone.
    SpawnedRO,
    /// A copy of it is out that may be changed.
    SpawnedRW,
}

impl SpawnStatus {
    /// Its word in the standard.
    pub fn word(self) -> &'static str
        // Proved: What a resource shows of spawns has a word.
        ensures { result.now ≡ words.status_word self }
    {
        match self {
            SpawnStatus::NotSpawned => "NotSpawned",
            SpawnStatus::SpawnedRO => "SpawnedRO",
            SpawnStatus::SpawnedRW => "SpawnedRW",
        }
    }
}
