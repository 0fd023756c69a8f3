/// Where a connection stands. It only goes on to a later phase.
#[derive(Clone, Copy, PartialEq, Eq)]
pub enum Phase {
    /// Its request comes.
    Reading,
    /// Its request was handed out, and a response is waited for.
    Waiting,
    /// Its response is written.
    Writing,
    /// Its response was written, and what still comes is thrown away.
    Lingering,
    /// It is at its end.
    Closed,
}
