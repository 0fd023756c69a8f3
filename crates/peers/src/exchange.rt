//! A request that is written, and its response, beside the stream of both.

ghost use Rattle.std.specs.Prelude.{◌≡◌, ◌<◌, ◌≤◌, length, true, IfOk, OnErr};
ghost use Rattle.http_message.specs.Incoming.{IsWanted, IsWhole, Says};
ghost use Rattle.peers.specs.Exchange as exchanges;

use crate::call_limits::CallLimits;
use crate::progress::Progress;
use crate::writing::write_some;
use http_message::{Arrival, Incoming, Kind, Need, Received, Standing, WholeMessage};
use std::alloc::{AllocError, Global};
use std::io::{ErrorKind, Read, Write};
use std::marker::Model;
use streams::{Counted, Refused};
use ticket_items::Refusal;

/// A request of which a front was written, and its response in the making.
#[derive(Drop)]
pub(crate) struct Exchange {
    request: Vec<u8>,
    done: usize,
    writes: bool,
    incoming: Incoming,
    deadline: u64,
}

impl Model for Exchange {
    ghost use Rattle.std.specs.Prelude.{◌≤◌, length};
    ghost use Rattle.peers.specs.Exchange as exchanges;

    ghost Value = { exchanges.Exchange };

    ghost view = { λ x. record {
      request = x.request.items;
      done = x.done;
      writes = x.writes;
      came = x.incoming;
      deadline = x.deadline;
    } };

    ghost invariant = { λ x. x.done ≤ length x.request.items };
}

impl Exchange {
    /// A request of which nothing was written at this moment.
    pub fn new(alloc: Global, request: Vec<u8>, limits: CallLimits, now: u64) -> Exchange
        ensures { result ≡ exchanges.new_exchange request.items limits now }
    {
        Exchange {
            request,
            done: 0,
            writes: true,
            incoming: Incoming::new(alloc, Kind::Response, limits.body),
            deadline: now.saturating_add(limits.time),
        }
    }

    /// The moment at which it is given up.
    pub fn deadline(&self) -> u64
        ensures { result ≡ self.now.deadline }
    {
        self.deadline
    }

    /// How many bytes are kept of it.
    pub fn held_bytes(&self) -> usize
        ensures { result ≡ exchanges.kept_bytes self.now }
    {
        self.incoming
            .len()
            .saturating_add(self.request.as_slice().len())
    }

    /// Whether it is to write next: else it reads.
    pub fn is_writing(&self) -> bool
        ensures { result ≡ exchanges.is_writing self.now }
    {
        self.writes && self.done < self.request.as_slice().len()
    }

    /// Has it write next, or read.
    pub fn set_writing(&mut self, writes: bool)
        ensures { self.new ≡ record self.old { writes = writes } }
    {
        self.writes = writes;
    }

    /// Makes one write of the request, if something of it is to be written. Answers whether more
    /// may be written at once.
    pub fn write_some<T: Write>(&mut self, stream: &mut Counted<T>) -> bool
        ensures { exchanges.Sends (T.contents stream.old.inner) (T.contents stream.new.inner)
            self.old self.new }
    {
        if self.done == self.request.as_slice().len() {
            return false;
        }
        match write_some(stream, &self.request.as_slice()[self.done..]) {
            Ok(count) => {
                self.done += count;
                true
            }
            Err(ErrorKind::Interrupted) => true,
            Err(_) => false,
        }
    }

    /// Makes one read of the response, of which this is wanted.
    fn read_on<T: Read>(
        &mut self,
        stream: &mut Counted<T>,
        buffer: &mut [u8],
        wanted: &Need,
    ) -> Result<Progress, AllocError>
        requires buffer { 0 < length buffer.old }
        requires wanted { IsWanted self.old.came.most self.old.came.kind self.old.came.bytes
            wanted.now }
        ensures ok { IfOk result (exchanges.ReadsTo (T.remaining stream.old.inner)
            (T.remaining stream.new.inner) self.old self.new) }
    {
        if stream.calls() == u64::MAX {
            return Ok(Progress::Failed(Refused::ReadFailed));
        }
        Ok(
            match self.incoming.read_from(stream, buffer, wanted.room)? {
                Arrival::Came | Arrival::Again => Progress::Again,
                Arrival::NotYet => Progress::Wait,
                Arrival::Ended => Progress::Failed(wanted.refused),
                Arrival::Failed => Progress::Failed(Refused::ReadFailed),
            },
        )
    }

    /// Tells what came of the response, or makes one read of it.
    pub fn read_some<T: Read>(&mut self, stream: &mut Counted<T>, buffer: &mut [u8]) -> Progress
        requires { 0 < length buffer.old }
        ensures { exchanges.ReadsTo (T.remaining stream.old.inner) (T.remaining stream.new.inner)
            self.old self.new result }
    {
        match self.incoming.look() {
            Standing::Wanted(wanted) => match self.read_on(stream, buffer, &wanted) {
                Ok(progress) => progress,
                Err(_) => Progress::Failed(Refused::Core(Refusal::Memory)),
            },
            Standing::Refused(refused) => Progress::Failed(refused),
            Standing::Whole(whole) => Progress::Whole(whole),
        }
    }

    /// The response, which is whole.
    pub fn into_received(self, alloc: Global, whole: WholeMessage) -> Result<Received, AllocError>
        requires { IsWhole self.came.most self.came.kind self.came.bytes whole }
        ensures { IfOk result (λ r. Says self.came.most self.came.kind self.came.bytes r.status
            r.method r.head.items r.target.items r.body) }
    {
        self.incoming.into_received(alloc, whole)
    }
}
