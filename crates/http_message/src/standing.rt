use crate::wanted::Need;
use crate::whole::WholeMessage;
use streams::Refused;

/// How far a message is that comes.
#[derive(Clone, Copy)]
pub enum Standing {
    /// More of it is wanted.
    Wanted(Need),
    /// It is refused, whatever follows.
    Refused(Refused),
    /// It is whole, whatever follows.
    Whole(WholeMessage),
}
