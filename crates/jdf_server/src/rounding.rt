//! Rounds, one after the other.

ghost use Rattle.std.specs.Prelude.{◌<◌, length};

use crate::server::Server;
use keepers::Locks;
use server_clients::BUFFER_SIZE;
use std::alloc::{Alloc, AllocError};
use std::io::Write;
use std::net::Net;
use std::time::{Clock, Duration};

/// After how many milliseconds a file is looked at again that somebody else has locked.
const LOCK_TIME: u64 = 10;

impl<'a, R: Locks + Net + Clock + Alloc + Clone + Drop, F: Write + Drop> Server<'a, R, F> {
    /// The next moment at which something is to be done, if nothing comes before.
    fn next_moment(&self) -> u64 {
        let now = self.clients.now;
        if !self.lines.is_empty() && !self.is_locked_out {
            return now;
        }
        let mut next = self.clients.next_moment();
        if self.is_locked_out {
            next = u64::min(next, now.saturating_add(LOCK_TIME));
        }
        next = u64::min(next, self.look_moment());
        next = u64::min(next, self.readers.next_moment(now));
        next = u64::min(next, self.operators.next_moment(now));
        if let Some(post) = &self.post {
            next = u64::min(next, post.next_moment());
        }
        next
    }

    /// Waits until something comes or is to be done.
    fn wait(&mut self) {
        let time = self.next_moment().saturating_sub(self.clients.now);
        let timeout = Duration::from_millis(time);
        if self.poll.poll(&mut self.events, Some(timeout)).is_err() {
            self.events.clear();
        }
        self.clients.now = self.moments.now(self.rt, self.clients.now);
    }

    /// Accepts all who wait, as many as there is room for.
    fn accept(&mut self) {
        let (alloc, registry, now) = (self.alloc, self.poll.registry(), self.clients.now);
        self.clients.accept_all(registry);
        self.readers.accept_all(alloc, registry, now);
        self.operators.accept_all(alloc, registry, now);
    }

    /// Gives each that may have something its turn.
    fn advance(&mut self, buffer: &mut [u8]) -> Result<(), AllocError>
        requires { 0 < length buffer.old }
    {
        self.advance_clients(buffer)?;
        let (alloc, now) = (self.alloc, self.clients.now);
        self.readers.advance(alloc, buffer, now)?;
        self.operators.advance(alloc, buffer, now)
    }

    /// Lets go of all whose time is up.
    fn close_late(&mut self) -> Result<(), AllocError> {
        let (alloc, now) = (self.alloc, self.clients.now);
        self.readers.close_late(alloc, now)?;
        self.operators.close_late(alloc, now)?;
        self.close_late_calls()?;
        self.clients.close_late()
    }

    /// Goes on behind a round in which memory ran out: those who waited for their responses are let
    /// go, and all others are looked at in the next round.
    fn recover(&mut self) {
        self.lines.clear();
        self.clients.recover();
        if let Some(post) = &mut self.post {
            post.recover(self.clients.now);
        }
        self.watched.read_all_again();
        self.readers.recover();
        self.operators.recover();
    }

    /// A round.
    fn round(&mut self, buffer: &mut [u8]) -> Result<(), AllocError>
        requires { 0 < length buffer.old }
    {
        self.note_events()?;
        self.clients.feed()?;
        self.accept();
        self.advance(buffer)?;
        self.watch()?;
        self.read_files()?;
        self.advance_calls(buffer)?;
        self.dispatch()?;
        self.take_orders()?;
        self.step_all()?;
        self.serve_pages()?;
        self.clients.now = self.moments.now(self.rt, self.clients.now);
        self.advance(buffer)?;
        self.close_late()
    }

    /// Whether all connections were served that were asked for.
    fn is_done(&self) -> bool {
        self.clients.left == Some(0) && self.clients.all.is_empty()
    }

    /// Rounds without an end, or until the connections were served that were asked for.
    pub fn run(&mut self) {
        let mut buffer = [0; BUFFER_SIZE];
        for _ in 0..u64::MAX {
            if self.is_done() {
                break;
            }
            self.wait();
            if self.round(&mut buffer).is_err() {
                self.recover();
            }
            self.clients.log.flush();
        }
    }
}
