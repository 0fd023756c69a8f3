/// How the message of open work fares, which goes to its receiver by itself.
#[derive(Clone, Copy, PartialEq, Eq)]
pub enum Delivery {
    /// None goes by itself.
    Unknown,
    /// No answer came yet.
    Waits,
    /// An answer came that accepts it.
    Taken,
    /// An answer came that refuses it, for the refusal of this number. It isn't sent again.
    Refused(u16),
}
