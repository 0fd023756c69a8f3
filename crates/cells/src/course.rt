/// What a call comes to (our own).
#[derive(Clone, Copy, Debug, PartialEq, Eq)]
pub(crate) enum Course {
    /// It is answered.
    Answered,
    /// It comes, and isn't answered.
    Mute,
    /// It doesn't come.
    Lost,
    /// It may come later.
    Delayed,
}
