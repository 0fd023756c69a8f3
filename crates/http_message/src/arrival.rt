/// What one read gave.
#[derive(Clone, Copy)]
pub enum Arrival {
    /// Some bytes.
    Came,
    /// Nothing, since the read was interrupted: it is to be made again.
    Again,
    /// Nothing yet: the read would block.
    NotYet,
    /// Nothing, at the end of what is read.
    Ended,
    /// Nothing, since the read failed.
    Failed,
}
