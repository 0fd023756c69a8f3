ghost use Rattle.std.specs.Prelude.{◌≡◌, ℕ, List, Option, Some, None, IfOk, OnErr};
ghost use Rattle.etcd_cell.specs.Cell.{unused};

use crate::gateway::Gateway;
use connections::{Until, connect_until};
use std::io::{self, Read, Write};
use std::net::Net;
use std::time::{Clock, Duration};
use streams::Counted;

/// What makes connections (our own).
pub trait Connector: Drop {
    /// What a connection is read and written by.
    type Stream: Read + Write + Drop;

    /// What it comes to where a connection to a host is wanted: this stream, or none.
    ghost connects: { Self → List ℕ → Option Self.Stream → Type 0 };

    /// A connection to a host.
    fn connection(&self, host: &str) -> io::Result<Self::Stream>
        // Proved: What makes connections says to which host it makes which, or none.
        // By `ok`, `err`.
        // Not proved: that a connection over a socket is one to its host.
        ensures ok { IfOk result (λ stream. connects self.now host.now (Some stream)) }
        ensures err { OnErr result (connects self.now host.now None) };
}

/// What makes connections over sockets, each for so long at most (our own).
#[derive(Drop)]
pub struct SocketConnector<'a, R> {
    rt: &'a R,
    limit: Duration,
}

impl<'a, R: Net + Clock> SocketConnector<'a, R> {
    /// Connections of this limit.
    pub fn new(rt: &'a R, limit: Duration) -> SocketConnector<'a, R> {
        SocketConnector { rt, limit }
    }
}

impl<'a, R: Net + Clock> Connector for SocketConnector<'a, R> {
    type Stream = Until<'a, R, R::Stream>;

    ghost use Rattle.std.specs.Prelude.{⊤};

    ghost connects = { λ _ _ _. ⊤ };

    fn connection(&self, host: &str) -> io::Result<Until<'a, R, R::Stream>> {
        connect_until(self.rt, host, self.limit)
    }
}

/// A connection to a gateway, over which nothing was asked yet.
pub(crate) fn connection_to<C: Connector>(
    connector: &C,
    gateway: &Gateway,
) -> io::Result<Counted<C::Stream>>
    ensures ok { IfOk result (λ stream. C.connects connector.now gateway.now (Some stream.inner)
        × (stream ≡ unused stream.inner)) }
    ensures err { OnErr result (C.connects connector.now gateway.now None) }
{
    match connector.connection(gateway.authority()) {
        Ok(stream) => Ok(Counted::new(stream)),
        Err(error) => Err(error),
    }
}
