/// What is to be sent: an item, and the number of its destination.
#[derive(Clone, Copy, Debug, PartialEq, Eq)]
pub struct Flight {
    pub line: usize,
    pub item: u64,
}
