//! A call of another server: its request and its response beside the stream.

ghost use Rattle.std.specs.Prelude.{◌≡◌, ◌<◌, length};
ghost use Rattle.peers.specs.Call as calls;
ghost use Rattle.peers.specs.Exchange as exchanges;

use crate::call_limits::CallLimits;
use crate::call_turn::CallTurn;
use crate::client::MAX_CALLS;
use crate::exchange::Exchange;
use crate::progress::Progress;
use http_message::WholeMessage;
use std::alloc::Global;
use std::io::{Read, Write};
use std::marker::Model;
use streams::{Counted, Refused};
use ticket_items::Refusal;

/// One call, whose stream never waits.
#[derive(Drop)]
pub struct Call<S> {
    exchange: Exchange,
    stream: S,
}

impl<S> Model for Call<S> {
    ghost use Rattle.peers.specs.Outgoing.{Outgoing};

    ghost Value = { Outgoing S };

    ghost view = { λ c. record {
      exchange = c.exchange;
      stream = c.stream;
    } };
}

/// Writes of the request what the stream takes, and has the response read next, unless the stream
/// may take more.
fn write_on<S: Write>(exchange: &mut Exchange, stream: &mut Counted<S>)
    ensures { exchanges.Sends (S.contents stream.old.inner) (S.contents stream.new.inner)
        exchange.old exchange.new }
{
    for _ in 0..MAX_CALLS {
        if !exchange.write_some(stream) {
            exchange.set_writing(false);
            return;
        }
    }
}

/// Reads of the response what the stream has.
fn read_on<S: Read>(exchange: &mut Exchange, stream: &mut Counted<S>, buffer: &mut [u8]) -> Progress
    requires { 0 < length buffer.old }
    ensures { exchanges.ReadsTo (S.remaining stream.old.inner) (S.remaining stream.new.inner)
        exchange.old exchange.new result }
{
    for _ in 0..MAX_CALLS {
        match exchange.read_some(stream, buffer) {
            Progress::Again => {}
            progress => return progress,
        }
    }
    Progress::Again
}

impl<S> Call<S> {
    /// A call with this request, which begins at this moment, in milliseconds.
    pub fn new(alloc: Global, request: Vec<u8>, limits: CallLimits, stream: S, now: u64) -> Call<S>
        // Proved: A call of another server writes in a turn what comes next of its request, and
        // nothing else, or reads. Its response is what the bytes carry that came before and in
        // this turn, also where it comes before the request was written whole; where there is
        // none, the bytes are refused so, or a read failed, memory ran out, or its deadline came.
        // From its deadline on it doesn't go on, and after either there is no call.
        // By `Call::advance`.
        ensures { result ≡ record {
          exchange = exchanges.new_exchange request.items limits now;
          stream = stream;
        } }
    {
        Call {
            exchange: Exchange::new(alloc, request, limits, now),
            stream,
        }
    }

    /// The moment, in milliseconds, from which on it fails unless its response is there.
    pub fn deadline(&self) -> u64
        ensures { result ≡ self.now.exchange.deadline }
    {
        self.exchange.deadline()
    }

    /// How many bytes are kept of it: its request, and what came of its response.
    pub fn held_bytes(&self) -> usize
        // Proved: How many bytes are kept of a call, its deadline and its stream are told.
        // By `Call::deadline`, `Call::stream`.
        ensures { result ≡ exchanges.kept_bytes self.now.exchange }
    {
        self.exchange.held_bytes()
    }

    /// Its stream.
    pub fn stream(&self) -> &S
        ensures { result.now ≡ self.now.stream }
    {
        &self.stream
    }
}

impl<S: Drop> Call<S> {
    /// The response, which is whole.
    fn end(self, alloc: Global, whole: WholeMessage) -> CallTurn<S>
        requires { calls.IsWhole self whole }
        ensures { calls.Ends self result }
    {
        match self.exchange.into_received(alloc, whole) {
            Ok(received) => CallTurn::Came(received),
            Err(_) => CallTurn::Failed(Refused::Core(Refusal::Memory)),
        }
    }

    /// What comes of a turn in which it goes on.
    fn go_on(self, waits: bool, now: u64) -> CallTurn<S>
        ensures { calls.GoesOn now self waits result }
    {
        if self.exchange.deadline() <= now {
            return CallTurn::Failed(Refused::ReadFailed);
        }
        if waits {
            CallTurn::Wait(self)
        } else {
            CallTurn::Again(self)
        }
    }
}

impl<S: Read + Write + Drop> Call<S> {
    /// Gives it a turn at this moment: writes what the stream takes of the request, or else reads
    /// what it has of the response, and takes that also where the request wasn't written whole. A
    /// request that can't be written is no failure: the response may tell why.
    pub fn advance(self, alloc: Global, buffer: &mut [u8], now: u64) -> CallTurn<S>
        // Wants: room for a byte or more.
        requires { 0 < length buffer.old }
        ensures { calls.TurnsTo S.remaining S.contents now self result }
    {
        let Call {
            mut exchange,
            stream,
        } = self;
        let mut counted = Counted::new(stream);
        if exchange.is_writing() {
            write_on(&mut exchange, &mut counted);
            let stream = counted.into_inner();
            return Call { exchange, stream }.go_on(false, now);
        }
        let progress = read_on(&mut exchange, &mut counted, buffer);
        exchange.set_writing(true);
        let call = Call {
            exchange,
            stream: counted.into_inner(),
        };
        match progress {
            Progress::Wait => call.go_on(true, now),
            Progress::Again => call.go_on(false, now),
            Progress::Whole(whole) => call.end(alloc, whole),
            Progress::Failed(refused) => CallTurn::Failed(refused),
        }
    }
}
