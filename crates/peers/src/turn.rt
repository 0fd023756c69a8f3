use crate::asked::OwedClient;
use crate::client::Client;
use http_message::Received;
use streams::Refused;

/// What came of a client's turn.
#[derive(Drop)]
pub enum Turn<S> {
    /// Nothing more is to be done until its stream is ready again.
    Wait(Client<S>),
    /// It may have more, and is to have another turn.
    Again(Client<S>),
    /// Its request came, and a response is owed.
    Request(OwedClient<S>, Received),
    /// Its request is refused, and a response is owed.
    Refused(OwedClient<S>, Refused),
    /// Its response was written whole. The writing half of its stream is to be closed.
    Written(Client<S>),
    /// It is at its end, and its stream is closed.
    Closed,
}
