//! A client: its connection beside the stream.

ghost use Rattle.std.specs.Prelude.{◌≡◌, ◌<◌, length, true};
ghost use Rattle.peers.specs.Calls as calls;
ghost use Rattle.peers.specs.Client as clients;
ghost use Rattle.peers.specs.Peer as peers;
ghost use Rattle.peers.specs.Turn as turned;
ghost use Rattle.peers.specs.declared.event.Event.TheVariants as events;
ghost use Rattle.peers.specs.declared.phase.Phase.TheVariants as phases;

use crate::asked::OwedClient;
use crate::event::Event;
use crate::limits::Limits;
use crate::peer::Peer;
use crate::turn::Turn;
use std::alloc::Global;
use std::io::{Read, Write};
use std::marker::Model;
use streams::Counted;

/// How many calls of its stream a client or a call has at a stretch at most, so that each other has
/// its turn too.
pub(crate) const MAX_CALLS: u32 = 64;

/// One client, whose stream never waits.
#[derive(Drop)]
pub struct Client<S> {
    peer: Peer,
    stream: S,
}

impl<S> Model for Client<S> {
    ghost use Rattle.peers.specs.Client.{Connection};

    ghost Value = { Connection S };

    ghost view = { λ c. record {
      peer = c.peer;
      stream = c.stream;
    } };
}

/// Reads until the stream has no more, or something comes of what was read.
fn read_on<S: Read>(
    alloc: Global,
    peer: &mut Peer,
    stream: &mut Counted<S>,
    buffer: &mut [u8],
    now: u64,
) -> Event
    requires { 0 < length buffer.old }
    ensures reading { peer.old.phase ≡ phases.Reading →
        calls.Comes now (S.remaining stream.old.inner) (S.remaining stream.new.inner) peer.old
        peer.new result }
    ensures lingering { peer.old.phase ≡ phases.Lingering →
        calls.ThrowsOn peer.old peer.new result }
    ensures quiet { peers.is_quiet peer.old.phase ≡ true →
        (peer.new ≡ peer.old) × (stream.new ≡ stream.old) }
    ensures quiet_event { peers.is_quiet peer.old.phase ≡ true → result ≡ events.Wait }
{
    for _ in 0..MAX_CALLS {
        match peer.on_readable(alloc, stream, buffer, now) {
            Event::Again => {}
            event => return event,
        }
    }
    Event::Again
}

/// Writes until the stream takes no more, or all is written.
fn write_on<S: Write>(peer: &mut Peer, stream: &mut Counted<S>, now: u64) -> Event
    ensures { calls.GivesOn now (S.contents stream.old.inner) (S.contents stream.new.inner) peer.old
        peer.new result }
{
    for _ in 0..MAX_CALLS {
        match peer.on_writable(stream, now) {
            Event::Again => {}
            event => return event,
        }
    }
    Event::Again
}

/// Reads, and where nothing comes of that, writes what is to be written.
fn advance<S: Read + Write>(
    alloc: Global,
    peer: &mut Peer,
    stream: &mut Counted<S>,
    buffer: &mut [u8],
    now: u64,
) -> Event
    requires { 0 < length buffer.old }
    ensures { calls.Turns S.remaining S.contents now stream.old.inner stream.new.inner peer.old
        peer.new result }
{
    match read_on(alloc, peer, stream, buffer, now) {
        Event::Wait => {
            if peer.wants_write() {
                return write_on(peer, stream, now);
            }
            Event::Wait
        }
        event => event,
    }
}

/// What came of a turn by the last event of it.
fn turn_of<S: Drop>(peer: Peer, stream: S, event: Event) -> Turn<S>
    requires { clients.IsOwed peer event }
    ensures { result ≡ turned.turn_of (record { peer = peer; stream = stream }) event }
{
    match event {
        Event::Wait => Turn::Wait(Client { peer, stream }),
        Event::Again => Turn::Again(Client { peer, stream }),
        Event::Request(request) => Turn::Request(OwedClient::of(peer, stream), request),
        Event::Refused(refused) => Turn::Refused(OwedClient::of(peer, stream), refused),
        Event::Written => Turn::Written(Client { peer, stream }),
        Event::Closed => {
            drop(peer);
            drop(stream);
            Turn::Closed
        }
    }
}

impl<S> Client<S> {
    /// A client that was accepted at this moment, in milliseconds.
    pub fn new(alloc: Global, limits: Limits, stream: S, now: u64) -> Client<S>
        ensures { result ≡ record { peer = peers.new_peer limits now; stream = stream } }
    {
        Client::of(Peer::new(alloc, limits, now), stream)
    }

    /// A connection beside its stream.
    pub(crate) fn of(peer: Peer, stream: S) -> Client<S>
        ensures { result ≡ record { peer = peer; stream = stream } }
    {
        Client { peer, stream }
    }

    /// The moment, in milliseconds, at which it is closed, unless it has gone on by then.
    pub fn deadline(&self) -> u64
        ensures { result ≡ self.now.peer.deadline }
    {
        self.peer.deadline()
    }

    /// How many bytes are kept of it: of its request, and of what is written to it.
    pub fn held_bytes(&self) -> usize
        // Proved: How many bytes are kept of a connection, and its deadline, are told.
        // By `Client::deadline`, `OwedClient::held_bytes`; `OwedClient::deadline`: `value`,
        // `waits`; `Peer::held_bytes`.
        ensures { result ≡ peers.kept_bytes self.now.peer }
    {
        self.peer.held_bytes()
    }

    /// Its stream.
    pub fn stream(&self) -> &S
        ensures { result.now ≡ self.now.stream }
    {
        &self.stream
    }
}

impl<S: Read + Write + Drop> Client<S> {
    /// Gives it a turn: reads of its stream and writes to it what may be read and written at this
    /// moment.
    pub fn advance(self, alloc: Global, buffer: &mut [u8], now: u64) -> Turn<S>
        // Wants: room for a byte or more.
        requires { 0 < length buffer.old }
        // Proved: Beside its stream: a request is handed out as what the bytes carry that came
        // before and in this turn, and why one is refused by the same bytes; then a response is
        // owed, by the type.
        // By `Client::new`, `Client::stream`.
        // Proved: In each turn of a client what is written is the next piece of what is to be
        // written, behind what was; `Written` tells that the response is written whole.
        ensures { turned.TurnsTo S.remaining S.contents now self result }
    {
        let Client { mut peer, stream } = self;
        let mut counted = Counted::new(stream);
        let event = advance(alloc, &mut peer, &mut counted, buffer, now);
        turn_of(peer, counted.into_inner(), event)
    }
}
