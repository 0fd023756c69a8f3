use crate::progress::Progress;

/// The row of a node in a picture, and how far that is.
#[derive(Drop)]
pub struct NodeLine {
    pub progress: Progress,
    pub text: String,
}
