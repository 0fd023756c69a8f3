use spawn::Phase;
use worker_core::Stage;

/// How far work is that is shared by two controllers.
#[derive(Clone, Copy, PartialEq, Eq)]
pub enum WorkPhase {
    /// Of a spawn, at its master.
    Spawn(Phase),
    /// Of an entry, at its worker.
    Entry(Stage),
}

impl WorkPhase {
    ghost use Rattle.std.specs.Prelude.{◌≡◌};
    ghost use Rattle.job_list.specs.Work as work;

    /// Whether a part is still out: the master waits for it, or the worker keeps it.
    pub fn is_open(self) -> bool
        ensures { result ≡ work.is_open_phase self }
    {
        match self {
            WorkPhase::Spawn(Phase::Out) => true,
            WorkPhase::Spawn(Phase::Merged) => false,
            WorkPhase::Spawn(Phase::Withdrawn) => false,
            WorkPhase::Entry(Stage::Open) => true,
            WorkPhase::Entry(Stage::Done(_)) => true,
            WorkPhase::Entry(Stage::Closed(_)) => false,
            WorkPhase::Entry(Stage::Declined) => false,
        }
    }

    /// Whether it is open, or isn't, as is asked for.
    pub fn is_asked(self, are_open: bool) -> bool
        ensures { result ≡ work.is_asked are_open self }
    {
        if are_open {
            self.is_open()
        } else {
            !self.is_open()
        }
    }

    /// How far it is, in a word: of an entry that has ended, the end too.
    pub fn word(self) -> &'static str
        ensures { result.now ≡ work.phase_word self }
    {
        match self {
            WorkPhase::Spawn(Phase::Out) => "Out",
            WorkPhase::Spawn(Phase::Merged) => "Merged",
            WorkPhase::Spawn(Phase::Withdrawn) => "Withdrawn",
            WorkPhase::Entry(Stage::Open) => "Open",
            WorkPhase::Entry(Stage::Done(end)) => end.word(),
            WorkPhase::Entry(Stage::Closed(_)) => "Closed",
            WorkPhase::Entry(Stage::Declined) => "Declined",
        }
    }
}
