ghost use Rattle.std.specs.Prelude.{◌≡◌};
ghost use Rattle.worker_core.specs.Worker as worker;

use controller::QueueStatus;
use ticket_tree::Refusal;
use world_items::End;

/// How far a worker is with a part.
#[derive(Clone, Copy, PartialEq, Eq)]
pub enum Stage {
    /// It may be changed.
    Open,
    /// It was given back.
    Done(End),
    /// It was given back and has come: the worker has given it up.
    Closed(End),
    /// It was to be given up before it was taken: it never will be.
    Declined,
}

impl Stage {
    /// Whether the part may be changed.
    pub fn is_open(self) -> bool
        // Proved: An entry tells whether it is open, whether it was declined, and what a command
        // on it is told.
        // By `Stage::is_declined`, `Stage::response`.
        ensures { result ≡ worker.is_open_stage self }
    {
        match self {
            Stage::Open => true,
            Stage::Done(_) | Stage::Closed(_) | Stage::Declined => false,
        }
    }

    /// Whether the part was given up.
    pub(crate) fn is_closed(self) -> bool
        ensures { result ≡ worker.is_closed_stage self }
    {
        match self {
            Stage::Open | Stage::Done(_) | Stage::Declined => false,
            Stage::Closed(_) => true,
        }
    }

    /// Whether the part was declined.
    pub fn is_declined(self) -> bool
        ensures { result ≡ worker.is_declined_stage self }
    {
        match self {
            Stage::Open | Stage::Done(_) | Stage::Closed(_) => false,
            Stage::Declined => true,
        }
    }

    /// Whether there is a part: it was taken, and wasn't given up.
    pub(crate) fn keeps_part(self) -> bool
        ensures { result ≡ worker.keeps_part self }
    {
        match self {
            Stage::Open | Stage::Done(_) => true,
            Stage::Closed(_) | Stage::Declined => false,
        }
    }

    /// What a command of the spawn is told: the Status of the queue entry of the part, or the
    /// number of the refusal where that was declined.
    pub fn response(self) -> Result<QueueStatus, u16>
        ensures { result ≡ worker.response_of_stage self }
    {
        match self {
            Stage::Open => Ok(QueueStatus::Running),
            Stage::Done(end) | Stage::Closed(end) => Ok(status_of(end)),
            Stage::Declined => Err(Refusal::Declined.number()),
        }
    }
}

/// The Status of the queue entry of a part whose work ended so.
fn status_of(end: End) -> QueueStatus
    ensures { result ≡ worker.status_of_end end }
{
    match end {
        End::Completed => QueueStatus::Completed,
        End::Aborted => QueueStatus::Aborted,
    }
}
