ghost use Rattle.std.specs.Prelude.{◌≡◌, ◌++◌, IfOk};
ghost use Rattle.peers.specs.Peer as peers;
ghost use Rattle.peers.specs.declared.phase.Phase.TheVariants as phases;

use crate::client::Client;
use crate::peer::Peer;
use std::alloc::AllocError;
use std::marker::Model;

/// A client to whom a response is owed.
#[derive(Drop)]
pub struct OwedClient<S> {
    peer: Peer,
    stream: S,
}

impl<S> Model for OwedClient<S> {
    ghost use Rattle.std.specs.Prelude.{◌≡◌};
    ghost use Rattle.peers.specs.Client.{Connection};
    ghost use Rattle.peers.specs.declared.phase.Phase.TheVariants as phases;

    ghost Value = { Connection S };

    ghost view = { λ a. record {
      peer = a.peer;
      stream = a.stream;
    } };

    ghost invariant = { λ a. a.peer.phase ≡ phases.Waiting };
}

impl<S> OwedClient<S> {
    /// One that waits.
    pub(crate) fn of(peer: Peer, stream: S) -> OwedClient<S>
        requires { peer.phase ≡ phases.Waiting }
        ensures { result ≡ record { peer = peer; stream = stream } }
    {
        OwedClient { peer, stream }
    }

    /// The moment, in milliseconds, until which it waits.
    pub fn deadline(&self) -> u64
        ensures value { result ≡ self.now.peer.deadline }
        ensures waits { self.now.peer.phase ≡ phases.Waiting }
    {
        self.peer.deadline()
    }

    /// How many bytes are kept of it: of its request, and of what is written to it.
    pub fn held_bytes(&self) -> usize
        ensures { result ≡ peers.kept_bytes self.now.peer }
    {
        self.peer.held_bytes()
    }
}

impl<S: Drop> OwedClient<S> {
    /// Takes its response, whole, at this moment. Where memory runs out for that, the client is
    /// closed.
    pub fn answer(self, response: &[u8], now: u64) -> Result<Client<S>, AllocError>
        // Proved: To what owes a response, and to that alone, one can be given, whole.
        // By `ok`, `out`; `OwedClient::invariant`.
        ensures ok { IfOk result (λ c. c ≡ record {
          peer = peers.with_response_out response.now now self.peer;
          stream = self.stream;
        }) }
        ensures out { IfOk result
            (λ c. c.peer.out ≡ peers.interim self.peer.asked ++ response.now) }
    {
        let OwedClient { mut peer, stream } = self;
        peer.respond(response, now)?;
        Ok(Client::of(peer, stream))
    }
}
