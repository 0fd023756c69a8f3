use std::io::ErrorKind;

/// What becomes of a call of a reader or a writer that is cut, for tests of what stands on them
/// (our own).
#[derive(Clone, Copy)]
pub enum Cut {
    /// It fails, and so do those behind it.
    Fails,
    /// Nothing more is read or taken, from it on.
    Ends,
    /// It alone is interrupted.
    Interrupts,
    /// It is interrupted, and so are those behind it.
    InterruptsOn,
}

impl Cut {
    /// The error of a call, where the one of number `at` is cut; none if it comes through.
    pub(crate) fn error(self, at: u64, call: u64) -> Option<ErrorKind> {
        match self {
            Cut::Fails if call >= at => Some(ErrorKind::Other),
            Cut::Interrupts if call == at => Some(ErrorKind::Interrupted),
            Cut::InterruptsOn if call >= at => Some(ErrorKind::Interrupted),
            _ => None,
        }
    }
}
