/// What a holder does with its cell (our own).
#[derive(Debug, Drop)]
pub enum Act {
    /// It reads what is held.
    Read,
    /// It swaps what it has by these bytes.
    Swap(Vec<u8>),
    /// It touches what it has, where a swap of it is open.
    Touch,
}
