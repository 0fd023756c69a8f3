/// The Status of a queue entry (JMF; JDF 1.5, 5).
#[derive(Clone, Copy, PartialEq, Eq)]
pub enum QueueStatus {
    /// Work on the part goes on.
    Running,
    /// The work is done.
    Completed,
    /// The work was given up.
    Aborted,
}

impl QueueStatus {
    ghost use Rattle.std.specs.Prelude.{◌≡◌};
    ghost use Rattle.controller.specs.Words.{status_named};
    ghost use Rattle.controller.specs.Words.{status_word};

    /// The Status of a word.
    pub fn of_word(word: &str) -> Option<QueueStatus>
        ensures { result ≡ status_named word.now }
    {
        if word == "Running" {
            Some(QueueStatus::Running)
        } else if word == "Completed" {
            Some(QueueStatus::Completed)
        } else if word == "Aborted" {
            Some(QueueStatus::Aborted)
        } else {
            None
        }
    }

    /// Its word.
    pub fn word(self) -> &'static str
        ensures { result.now ≡ status_word self }
    {
        match self {
            QueueStatus::Running => "Running",
            QueueStatus::Completed => "Completed",
            QueueStatus::Aborted => "Aborted",
        }
    }
}
