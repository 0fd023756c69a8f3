use http_message::WholeMessage;
use streams::Refused;

/// How far the reads of a response came.
#[derive(Clone, Copy)]
pub(crate) enum Progress {
    /// More is wanted, and nothing is there yet.
    Wait,
    /// More may be there.
    Again,
    /// It is whole.
    Whole(WholeMessage),
    /// It won't come, for this reason.
    Failed(Refused),
}
