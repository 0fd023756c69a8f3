use ticket_items::SpawnId;

/// What is to be sent: what of a spawn a controller has out, and the number of its destination.
#[derive(Clone, Copy, Debug, PartialEq, Eq)]
pub struct Flight {
    pub line: usize,
    pub controller: usize,
    pub spawn: SpawnId,
}
