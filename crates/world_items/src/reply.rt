use ticket_tree::SpawnId;

/// What a controller replies to an order or a message that it took.
#[derive(Clone, Copy, PartialEq, Eq)]
pub enum Reply {
    /// What was to be edited is edited.
    Edited,
    /// The part of a spawn goes out.
    Spawned(SpawnId),
    /// The part of a spawn goes out, or comes back, once more.
    Sent(SpawnId),
    /// The work on the part of a spawn has ended, and the part comes back.
    Finished(SpawnId),
    /// The part of a spawn that came back was put in.
    Merged(SpawnId),
    /// The part of a spawn came back, and was put in before.
    Already(SpawnId),
    /// An answer that is noted alone.
    Noted(SpawnId),
    /// The part of a spawn was taken.
    Taken(SpawnId),
    /// The part of a spawn came, and was taken before.
    Again(SpawnId),
    /// The part of a spawn that was given back has come.
    Acked(SpawnId),
    /// The worker of a spawn is asked to give it up.
    Asked(SpawnId),
    /// A spawn of which nothing was taken won't be.
    Declined(SpawnId),
    /// The work on the part of a spawn has ended, as it was asked to be given up.
    Ended(SpawnId),
    /// A spawn that its worker declined is withdrawn.
    Freed(SpawnId),
}

impl Reply {
    ghost use Rattle.std.specs.Prelude.{◌≡◌};
    ghost use Rattle.world_items.specs.Reply as replies;

    /// Its word.
    pub fn word(self) -> &'static str
        // Proved: A reply has its word, and tells its spawn.
        // By `Reply::spawn`.
        ensures { result.now ≡ replies.word_of self }
    {
        match self {
            Reply::Edited => "Edited",
            Reply::Spawned(_) => "Spawned",
            Reply::Sent(_) => "Sent",
            Reply::Finished(_) => "Finished",
            Reply::Merged(_) => "Merged",
            Reply::Already(_) => "Already",
            Reply::Noted(_) => "Noted",
            Reply::Taken(_) => "Taken",
            Reply::Again(_) => "Again",
            Reply::Acked(_) => "Acked",
            Reply::Asked(_) => "Asked",
            Reply::Declined(_) => "Declined",
            Reply::Ended(_) => "Ended",
            Reply::Freed(_) => "Freed",
        }
    }

    /// The spawn that it tells of. That something is edited tells of none.
    pub fn spawn(self) -> Option<SpawnId>
        ensures { result ≡ replies.spawn_of_reply self }
    {
        match self {
            Reply::Edited => None,
            Reply::Spawned(spawn)
            | Reply::Sent(spawn)
            | Reply::Finished(spawn)
            | Reply::Merged(spawn)
            | Reply::Already(spawn)
            | Reply::Noted(spawn)
            | Reply::Taken(spawn)
            | Reply::Again(spawn)
            | Reply::Acked(spawn)
            | Reply::Asked(spawn)
            | Reply::Declined(spawn)
            | Reply::Ended(spawn)
            | Reply::Freed(spawn) => Some(spawn),
        }
    }
}
