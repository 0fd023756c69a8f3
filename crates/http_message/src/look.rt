use crate::head_says::HeadFacts;

/// What stands at the front of the bytes.
#[derive(Drop)]
pub(crate) enum Look {
    /// A head.
    Head(HeadFacts),
    /// No head yet.
    Part,
    /// No head, whatever bytes follow.
    Never,
}
