/// Where a save is cut off, and what it leaves (our own).
#[derive(Clone, Copy)]
pub struct Cut {
    /// The call of the disk, counted from 1, at which the program is ended that saves; 0 for none.
    pub call: u64,
    /// Which it leaves of all that a crash at some moment of the save might have left, by its
    /// place; the file as it was before, where there aren't so many.
    pub left: usize,
}
