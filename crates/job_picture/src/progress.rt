ghost use Rattle.std.specs.Prelude.{◌≡◌};
ghost use Rattle.job_picture.specs.Progress as progress;

/// How far a node is.
#[derive(Clone, Copy, PartialEq, Eq)]
pub enum Progress {
    /// Nothing has been done.
    Waiting,
    /// Work has begun and hasn't ended, though it may rest.
    InProgress,
    /// Work has ended well.
    Completed,
    /// Work was given up.
    Aborted,
}

/// Whether a Status says that work has begun and hasn't ended, though it may rest.
fn is_begun(status: &str) -> bool
    ensures { result ≡ progress.is_begun status.now }
{
    status == "InProgress"
        || status == "Setup"
        || status == "Cleanup"
        || status == "TestRunInProgress"
        || status == "Suspended"
        || status == "Stopped"
}

impl Progress {
    ghost use Rattle.std.specs.Prelude.{◌≡◌};
    ghost use Rattle.job_picture.specs.Progress as progress;

    /// How far a node of a Status is (JDF 1.5, 3.1.4); one of any Status that isn't named here
    /// waits.
    #[tactic(auto, unfolding(crate::specs::Progress::progress_of))]
    pub fn of_status(status: &str) -> Progress
        ensures { result ≡ progress.progress_of status.now }
    {
        if status == "Completed" {
            Progress::Completed
        } else if status == "Aborted" {
            Progress::Aborted
        } else if is_begun(status) {
            Progress::InProgress
        } else {
            Progress::Waiting
        }
    }

    /// Whether work is still to be done.
    pub fn is_undone(self) -> bool
        ensures { result ≡ progress.is_undone self }
    {
        match self {
            Progress::Waiting | Progress::InProgress => true,
            Progress::Completed | Progress::Aborted => false,
        }
    }

    /// The number of the shape that stands for it.
    pub fn shape(self) -> u32
        ensures { result ≡ progress.shape_of self }
    {
        match self {
            Progress::Waiting => 0,
            Progress::InProgress => 1,
            Progress::Completed => 2,
            Progress::Aborted => 3,
        }
    }
}
