use http_message::Received;
use streams::Refused;

/// What a call of a connection came to.
#[derive(Drop)]
pub enum Event {
    /// Nothing is to be done until the stream is ready again.
    Wait,
    /// The call is to be made again: the stream may have more.
    Again,
    /// The request came, and a response to it is to be given.
    Request(Received),
    /// The request is refused, and a response to that is to be given.
    Refused(Refused),
    /// The response was written whole. The writing half of the stream is to be closed.
    Written,
    /// The connection is at its end, and its stream is to be closed.
    Closed,
}
