/// What the answer to a swap tells (our own).
#[derive(Clone, Copy, Debug, PartialEq, Eq)]
pub enum SwapResult {
    /// It was made: this is the revision of its value.
    Made(u64),
    /// Another came first: it wasn't made, and never will be.
    Other,
    /// No answer came: it was made, or it wasn't, or it will be later.
    Unknown,
}
