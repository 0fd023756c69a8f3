//! One connection.

ghost use Rattle.std.specs.Prelude.{◌≡◌, ◌≤◌, ◌<◌, ◌+◌, ◌++◌, length, IfOk, OnOk, OnErr};
ghost use Rattle.std.specs.Prelude.{true};
ghost use Rattle.http_message.specs.Incoming.{IsWanted, IsWhole};
ghost use Rattle.peers.specs.Peer as peers;
ghost use Rattle.peers.specs.declared.event.Event.TheVariants as events;
ghost use Rattle.peers.specs.declared.phase.Phase.TheVariants as phases;

use crate::event::Event;
use crate::limits::Limits;
use crate::phase::Phase;
use crate::writing::write_some;
use http_message::{Arrival, Incoming, Kind, Need, Standing, WholeMessage};
use std::alloc::{AllocError, Global};
use std::io::{ErrorKind, Read, Write};
use std::marker::Model;
use std::mem;
use streams::{Counted, Refused};
use ticket_items::Refusal;

/// The interim response (RFC 9110, 15.2.1).
const CONTINUE: &[u8] = b"HTTP/1.1 100 Continue\r\n\r\n";

/// One connection to a client, beside its stream.
#[derive(Drop)]
pub struct Peer {
    limits: Limits,
    phase: Phase,
    incoming: Incoming,
    asked: bool,
    out: Vec<u8>,
    done: usize,
    spare: usize,
    deadline: u64,
}

impl Model for Peer {
    ghost use Rattle.peers.specs.Peer.{IsPeer, PeerView};

    ghost Value = { PeerView };

    ghost view = { λ p. record {
      limits = p.limits;
      phase = p.phase;
      came = p.incoming;
      asked = p.asked;
      out = p.out.items;
      done = p.done;
      spare = p.spare;
      deadline = p.deadline;
    } };

    ghost invariant = { λ p. IsPeer p.phase p.asked p.out.items p.done };
}

impl Peer {
    /// A connection that was accepted at this moment.
    pub fn new(alloc: Global, limits: Limits, now: u64) -> Peer
        // Proved: A connection reads until its request is whole or refused, and hands it out once,
        // as what its own bytes carry; from then on it reads nothing until its response was
        // written.
        // By `Peer::on_readable`: `reading`, `quiet`; `Peer::phase`.
        ensures { result ≡ peers.new_peer limits now }
    {
        Peer {
            limits,
            phase: Phase::Reading,
            incoming: Incoming::new(alloc, Kind::Request(limits.methods), limits.body),
            asked: false,
            out: Vec::new(alloc),
            done: 0,
            spare: limits.spare,
            deadline: now.saturating_add(limits.request),
        }
    }

    /// Where it stands.
    pub fn phase(&self) -> Phase
        ensures { result ≡ self.now.phase }
    {
        self.phase
    }

    /// The moment at which it is closed, unless it has gone on to another phase before.
    pub fn deadline(&self) -> u64
        ensures { result ≡ self.now.deadline }
    {
        self.deadline
    }

    /// Whether something is to be written.
    pub fn wants_write(&self) -> bool
        ensures { result ≡ peers.wants_write self.now }
    {
        self.done < self.out.as_slice().len()
    }

    /// How many bytes are kept of it: of its request, and of what is written to it.
    pub fn held_bytes(&self) -> usize
        ensures { result ≡ peers.kept_bytes self.now }
    {
        self.incoming
            .len()
            .saturating_add(self.out.as_slice().len())
    }

    /// Closes it, if its deadline has come.
    pub fn on_time(&mut self, now: u64)
        // Proved: From its deadline on `on_time` closes a connection, in each phase; `new`,
        // `respond`, `on_readable` and `on_writable` set the next one as the phase changes.
        // By `Peer::deadline`, `Peer::new`; `Peer::respond`: `ok`; `Peer::on_readable`: `reading`;
        // `Peer::on_writable`.
        ensures { self.new ≡ peers.at_time now self.old }
    {
        if self.deadline <= now {
            self.phase = Phase::Closed;
        }
    }

    /// Takes the response to its request, whole. At an `Err`, where memory runs out, it still waits
    /// for one.
    pub fn respond(&mut self, response: &[u8], now: u64) -> Result<(), AllocError>
        // Wants: a connection that waits for its response.
        requires { self.old.phase ≡ phases.Waiting }
        // Proved: The interim response is given where the head asks for it, once, and before the
        // response; else nothing is written until a response was given.
        // By `ok`, `out`, `err`; `Peer::on_readable`: `reading`, `unanswered`; `Peer::invariant`.
        ensures ok { OnOk result (self.new ≡ peers.with_response_out response.now now self.old) }
        ensures out { OnOk result (self.new.out ≡ peers.interim self.old.asked ++ response.now) }
        ensures err { OnErr result (self.new ≡ self.old) }
    {
        self.out.extend_from_slice(response)?;
        self.phase = Phase::Writing;
        self.deadline = now.saturating_add(self.limits.write);
        Ok(())
    }

    /// Closes it.
    fn close(&mut self)
        ensures { self.new ≡ peers.after_close self.old }
    {
        self.phase = Phase::Closed;
    }

    /// Counts bytes that were written. Where they were the last of the response, it lingers.
    fn count_written(&mut self, count: usize, now: u64) -> Event
        requires { self.old.done + count ≤ length self.old.out }
        ensures value { self.new ≡ peers.with_written count now self.old }
        ensures event { result ≡ peers.event_written count self.old }
    {
        self.done += count;
        if self.phase != Phase::Writing || self.done < self.out.as_slice().len() {
            return Event::Again;
        }
        self.phase = Phase::Lingering;
        self.deadline = now.saturating_add(self.limits.linger);
        Event::Written
    }

    /// Makes one write to its stream, if something is to be written.
    pub fn on_writable<T: Write>(&mut self, stream: &mut Counted<T>, now: u64) -> Event
        // Proved: What a connection writes is what comes next of the interim response and the
        // response, and nothing else.
        // By `Peer::wants_write`.
        ensures { peers.Writes T.contents now stream.old stream.new self.old self.new result }
    {
        if self.phase == Phase::Closed || !self.wants_write() {
            return Event::Wait;
        }
        match write_some(stream, &self.out.as_slice()[self.done..]) {
            Ok(count) => self.count_written(count, now),
            Err(ErrorKind::WouldBlock) => Event::Wait,
            Err(ErrorKind::Interrupted) => Event::Again,
            Err(_) => {
                self.close();
                Event::Closed
            }
        }
    }

    /// Gives the interim response, where the head expects it and it isn't given yet.
    fn ask(&mut self, expects: bool) -> Result<(), AllocError>
        requires { self.old.phase ≡ phases.Reading }
        ensures ok { OnOk result (self.new ≡ peers.with_interim expects self.old) }
        ensures err { OnErr result (self.new ≡ self.old) }
    {
        if !expects || self.asked {
            return Ok(());
        }
        self.out.extend_from_slice(CONTINUE)?;
        self.asked = true;
        Ok(())
    }

    /// Waits for its step from now on.
    fn wait(&mut self, now: u64)
        requires { self.old.phase ≡ phases.Reading }
        ensures { self.new ≡ peers.while_waiting now self.old }
    {
        self.phase = Phase::Waiting;
        self.deadline = now.saturating_add(self.limits.step);
    }

    /// Hands out the request, which is whole.
    fn hand_out(&mut self, alloc: Global, whole: WholeMessage, now: u64) -> Event
        requires phase { self.old.phase ≡ phases.Reading }
        requires whole { IsWhole self.old.came.most self.old.came.kind self.old.came.bytes whole }
        ensures { peers.Decides now self.old self.new result }
    {
        let empty = Incoming::new(alloc, Kind::Request(self.limits.methods), self.limits.body);
        let incoming = mem::replace(&mut self.incoming, empty);
        self.wait(now);
        match incoming.into_received(alloc, whole) {
            Ok(received) => Event::Request(received),
            Err(_) => Event::Refused(Refused::Core(Refusal::Memory)),
        }
    }

    /// Makes one read of the request.
    fn read_on<T: Read>(
        &mut self,
        stream: &mut Counted<T>,
        buffer: &mut [u8],
        wanted: &Need,
        now: u64,
    ) -> Result<Event, AllocError>
        requires buffer { 0 < length buffer.old }
        requires phase { self.old.phase ≡ phases.Reading }
        requires wanted { IsWanted self.old.came.most self.old.came.kind self.old.came.bytes
            wanted.now }
        ensures ok { IfOk result (peers.ReadsOn T.remaining now wanted.now stream.old stream.new
            self.old self.new) }
        ensures err { OnErr result (self.new ≡ self.old) }
    {
        if stream.calls() == u64::MAX {
            self.close();
            return Ok(Event::Closed);
        }
        match self.incoming.read_from(stream, buffer, wanted.room)? {
            Arrival::Came => Ok(Event::Again),
            Arrival::Again => Ok(Event::Again),
            Arrival::NotYet => Ok(Event::Wait),
            Arrival::Ended => {
                if self.incoming.len() == 0 {
                    self.close();
                    return Ok(Event::Closed);
                }
                self.wait(now);
                Ok(Event::Refused(wanted.refused))
            }
            Arrival::Failed => {
                self.close();
                Ok(Event::Closed)
            }
        }
    }

    /// Hands out its request or why it is refused, or reads more of it.
    #[tactic(auto, using(crate::proofs::Reading::asked_none, crate::proofs::Reading::asked_first))]
    fn on_request<T: Read>(
        &mut self,
        alloc: Global,
        stream: &mut Counted<T>,
        buffer: &mut [u8],
        now: u64,
    ) -> Result<Event, AllocError>
        requires buffer { 0 < length buffer.old }
        requires phase { self.old.phase ≡ phases.Reading }
        ensures ok { IfOk result (peers.Reads T.remaining now stream.old stream.new self.old
            self.new) }
        ensures err { OnErr result (peers.AsksOnly self.old self.new) }
    {
        match self.incoming.look() {
            Standing::Wanted(wanted) => {
                self.ask(wanted.expects_continue)?;
                self.read_on(stream, buffer, &wanted, now)
            }
            Standing::Refused(refused) => {
                self.wait(now);
                Ok(Event::Refused(refused))
            }
            Standing::Whole(whole) => Ok(self.hand_out(alloc, whole, now)),
        }
    }

    /// Throws away what still comes.
    fn on_rest<T: Read>(&mut self, stream: &mut Counted<T>, buffer: &mut [u8]) -> Event
        requires { 0 < length buffer.old }
        ensures { peers.Lingers self.old self.new result }
    {
        let size = usize::min(buffer.len(), self.spare);
        if size == 0 {
            self.close();
            return Event::Closed;
        }
        match stream.read(&mut buffer[..size]) {
            Ok(0) => {
                self.close();
                Event::Closed
            }
            Ok(count) => {
                self.spare -= count;
                Event::Again
            }
            Err(error) => match error.kind() {
                ErrorKind::WouldBlock => Event::Wait,
                ErrorKind::Interrupted => Event::Again,
                _ => {
                    self.close();
                    Event::Closed
                }
            },
        }
    }

    /// Makes one read of its stream, in a phase that reads, or hands out its request. Memory that
    /// runs out is a refusal of the request.
    #[tactic(auto, using(crate::proofs::Reading::out_of_memory))]
    pub fn on_readable<T: Read>(
        &mut self,
        alloc: Global,
        stream: &mut Counted<T>,
        buffer: &mut [u8],
        now: u64,
    ) -> Event
        // Wants: room for a byte or more.
        requires { 0 < length buffer.old }
        // Not proved: that so much is read behind a response, and no more.
        ensures reading { self.old.phase ≡ phases.Reading →
            peers.Reads T.remaining now stream.old stream.new self.old self.new result }
        // Proved: Of what comes behind the response nothing is kept, and what is counted of it
        // stays within a bound.
        ensures lingering { self.old.phase ≡ phases.Lingering →
            peers.Lingers self.old self.new result }
        ensures quiet { peers.is_quiet self.old.phase ≡ true →
            (self.new ≡ self.old) × (stream.new ≡ stream.old) × (result ≡ events.Wait) }
        ensures unanswered { peers.is_open self.old.phase ≡ true →
            peers.IsUnanswered self.old }
    {
        match self.phase {
            Phase::Reading => match self.on_request(alloc, stream, buffer, now) {
                Ok(event) => event,
                Err(_) => {
                    self.wait(now);
                    Event::Refused(Refused::Core(Refusal::Memory))
                }
            },
            Phase::Lingering => self.on_rest(stream, buffer),
            Phase::Waiting | Phase::Writing | Phase::Closed => Event::Wait,
        }
    }
}
