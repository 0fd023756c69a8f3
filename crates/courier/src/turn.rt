/// When a destination may be sent something: by its moment, and then by its number.
#[derive(Clone, Copy, PartialEq, Eq, PartialOrd, Ord)]
pub(crate) struct Turn {
    pub(crate) due: u64,
    pub(crate) line: usize,
}
