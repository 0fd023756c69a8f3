use crate::act::Act;

/// What one of many holders does (our own).
#[derive(Debug, Drop)]
pub struct Call {
    /// The number of the holder.
    pub holder: usize,
    /// What it does.
    pub act: Act,
}
