use crate::command_row::CommandRow;

/// The commands that a message gives (JMF; JDF 1.5, 5).
#[derive(Clone, Copy, PartialEq, Eq)]
pub enum Command {
    /// SubmitQueueEntry: a part goes out to a worker.
    Submit,
    /// ReturnQueueEntry: a part comes back from a worker.
    Return,
    /// AbortQueueEntry: a worker is to give a part up.
    Abort,
}

impl Command {
    ghost use Rattle.std.specs.Prelude.{◌≡◌};
    ghost use Rattle.controller.specs.Words.{command_named};
    ghost use Rattle.controller.specs.Words as words;

    /// The command of a Type.
    pub fn of_type(kind: &str) -> Option<Command>
        // Proved: Words name commands and Statuses, and the table says the rest of a command.
        // By `Command::row`: `word`, `mark`, `params`, `part`, `worker`; `QueueStatus::of_word`,
        // `QueueStatus::word`.
        ensures { result ≡ command_named kind.now }
    {
        [Command::Submit, Command::Return, Command::Abort]
            .into_iter()
            .find(|command| command.row().word == kind)
    }

    /// Its row.
    pub fn row(self) -> CommandRow
        ensures word { result.word.now ≡ (words.row_of self).word }
        ensures mark { result.mark.now ≡ (words.row_of self).mark }
        ensures params { result.params.now ≡ (words.row_of self).params }
        ensures part { result.has_part ≡ (words.row_of self).has_part }
        ensures worker { result.is_to_worker ≡ (words.row_of self).is_to_worker }
    {
        match self {
            Command::Submit => CommandRow {
                word: "SubmitQueueEntry",
                mark: "Q.",
                params: "QueueSubmissionParams",
                has_part: true,
                is_to_worker: true,
            },
            Command::Return => CommandRow {
                word: "ReturnQueueEntry",
                mark: "R.",
                params: "ReturnQueueEntryParams",
                has_part: true,
                is_to_worker: false,
            },
            Command::Abort => CommandRow {
                word: "AbortQueueEntry",
                mark: "A.",
                params: "AbortQueueEntryParams",
                has_part: false,
                is_to_worker: true,
            },
        }
    }
}
