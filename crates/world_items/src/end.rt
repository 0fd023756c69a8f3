/// How the work on a part ended.
#[derive(Clone, Copy, PartialEq, Eq)]
pub enum End {
    Completed,
    Aborted,
}

impl End {
    ghost use Rattle.std.specs.Prelude.{◌≡◌};
    ghost use Rattle.world_items.specs.End.{end_word};

    /// The Status of the node of a part whose work ended so.
    pub fn word(self) -> &'static str
        // Proved: An end has its word.
        ensures { result.now ≡ end_word self }
    {
        match self {
            End::Completed => "Completed",
            End::Aborted => "Aborted",
        }
    }
}
