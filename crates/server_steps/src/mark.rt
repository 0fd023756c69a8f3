use std::time::SystemTime;

/// What tells of a controller whether it is to be read again (our own).
#[derive(Clone, Copy, PartialEq, Eq)]
pub enum Mark {
    /// When its file was changed, or when it was looked at last.
    Moment(SystemTime),
    /// The revision of its value.
    Revision(u64),
}
