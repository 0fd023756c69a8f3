//! The clients of a round.

ghost use Rattle.std.specs.Prelude.{◌≡◌, ◌<◌, ℕ, None, Some, length, string_bytes, true};
ghost use Rattle.std.specs.Prelude.{OnErr, OnOk};
ghost use Rattle.std.specs.Option.{option_map};
ghost use Rattle.slab.specs.Slab.{Updates, get};
ghost use Rattle.listeners.specs.Guests.{unless};
ghost use Rattle.peers.specs.Peer.{kept_bytes};
ghost use Rattle.server_clients.specs.Clients.{Changes, IsGivenBack, IsRefused, held_with};
ghost use Rattle.server_clients.specs.Clients.{is_overdue, with_client};

use crate::entry::Entry;
use crate::note::Note;
use listeners::{Log, MessageListener};
use mio::net::TcpStream;
use peers::{Client, Turn};
use rounds::{AnsweredClient, WaitingClient, refuse};
use shop_folder::Place;
use shop_page::Counts;
use slab::Slab;
use std::alloc::{AllocError, Global};
use std::io::Write;
use std::mem;
use std::net::Shutdown;
use std::time::Clock;
use streams::Refused;

/// How many bytes a request has at most that is read on whatever memory there is.
const SMALL: usize = 65_536;

/// How many bytes are read at once.
pub const BUFFER_SIZE: usize = 16_384;

/// The clients that send messages, the listener to which they come, and the log, which has a line
/// of each.
#[derive(Drop)]
pub struct Clients<'a, R, F> {
    pub rt: &'a R,
    pub alloc: Global,
    /// What is served.
    pub place: Place<'a>,
    /// The moment of this round, in milliseconds.
    pub now: u64,
    pub listener: MessageListener,
    /// Whether the listener may have a connection that wasn't accepted yet.
    pub has_waiting: bool,
    /// The moment until which none is accepted.
    pub paused_until: u64,
    /// How many connections are to be served yet; nothing where there is no end.
    pub left: Option<u64>,
    /// How many are held at most.
    pub most: usize,
    pub all: Slab<Entry>,
    /// Those whose streams may have something or take something.
    pub ready: Vec<usize>,
    /// Whether those of all may, since which do was lost for want of memory.
    pub looks_at_all: bool,
    /// Those that aren't read on until there is memory for what they send.
    pub starved: Vec<usize>,
    /// The one whose large request is read on where memory is short.
    pub preferred: Option<usize>,
    /// How many bytes are kept of all.
    pub held: usize,
    /// How many bytes are kept of all at most, but for small requests and one large one.
    pub most_held: usize,
    pub counts: Counts,
    pub log: Log<F>,
}

/// Gives an entry its client. Answers how many bytes were kept of it before.
fn seat(entry: &mut Entry, client: Client<TcpStream>) -> usize
    ensures seated { entry.new ≡ with_client client entry.old }
    ensures before { result ≡ entry.old.held }
{
    let before = entry.held;
    entry.held = client.held_bytes();
    entry.client = Some(client);
    before
}

/// Puts a client in its place, if that is there. Answers how many bytes were kept of it before.
fn put_in(clients: &mut Slab<Entry>, key: usize, client: Client<TcpStream>) -> Option<usize>
    ensures seated { Changes (with_client client) key clients.old clients.new }
    ensures before { result ≡ option_map (λ e. e.held) (get clients.old key) }
{
    if let Some(entry) = clients.get_mut(key) {
        return Some(seat(entry, client));
    }
    None
}

impl<'a, R: Clock, F: Write + Drop> Clients<'a, R, F> {
    /// Whether some that weren't read on for want of memory may have a turn: there is some, or
    /// nobody's large request is read on.
    pub(crate) fn may_feed(&self) -> bool {
        let has_memory = self.held < self.most_held || self.preferred.is_none();
        has_memory && !self.starved.is_empty()
    }

    /// Gives those a turn again.
    pub fn feed(&mut self) -> Result<(), AllocError> {
        if self.may_feed() {
            let starved = mem::replace(&mut self.starved, Vec::new(self.alloc));
            for key in starved {
                self.ready.push(key)?;
            }
        }
        Ok(())
    }

    /// Whether a client isn't read on for want of memory: its request is large, and another's is
    /// read first.
    fn is_starved(&mut self, key: usize) -> bool {
        let Some(entry) = self.all.get(key) else {
            return false;
        };
        if self.held < self.most_held || entry.held <= SMALL || entry.note.is_some() {
            return false;
        }
        match self.preferred {
            Some(preferred) => preferred != key,
            None => {
                self.preferred = Some(key);
                false
            }
        }
    }

    /// Counts how many bytes are kept of a client now.
    fn count_held(&mut self, key: usize, held: usize)
        ensures clients { Changes (λ e. record e { held = held }) key self.old.all
            self.new.all }
        ensures held { self.new.held ≡ held_with held (get self.old.all key) self.old.held }
        ensures moment { self.new.now ≡ self.old.now }
    {
        if let Some(entry) = self.all.get_mut(key) {
            self.held = self.held.saturating_sub(entry.held).saturating_add(held);
            entry.held = held;
        }
    }

    /// Takes a client out of its place, if it is there.
    fn take_out(&mut self, key: usize) -> Option<Client<TcpStream>> {
        match self.all.get_mut(key) {
            Some(entry) => entry.client.take(),
            None => None,
        }
    }

    /// What comes of a client's turn, if it is in its place and there is memory for what it sends.
    pub fn turn_of(
        &mut self,
        key: usize,
        buffer: &mut [u8],
    ) -> Result<Option<Turn<TcpStream>>, AllocError>
        // Wants: room for a byte or more.
        requires { 0 < length buffer.old }
    {
        if self.is_starved(key) {
            self.starved.push(key)?;
            return Ok(None);
        }
        match self.take_out(key) {
            Some(client) => Ok(Some(client.advance(self.alloc, buffer, self.now))),
            None => Ok(None),
        }
    }

    /// The numbers of those who may have something, who are looked at now.
    pub fn take_ready(&mut self) -> Result<Vec<usize>, AllocError> {
        let mut ready = mem::replace(&mut self.ready, Vec::new(self.alloc));
        if self.looks_at_all {
            for key in 0..self.all.capacity() {
                ready.push(key)?;
            }
            self.looks_at_all = false;
        }
        Ok(ready)
    }

    /// Puts a client back in its place.
    #[tactic(auto, using(crate::proofs::Held::held_some, crate::proofs::Held::held_none))]
    pub fn put_back(&mut self, key: usize, client: Client<TcpStream>)
        // Proved: A client who is put back, whose request is refused, or whose response was
        // written, is under its own number, with its connection or its response; one who is let go
        // is under none. No other client changes.
        // By `clients`, `moment`; `Clients::refuse`, `Clients::linger`, `Clients::let_go`:
        // `clients`, `moment`.
        // Proved: How many bytes are kept of all is what was, without those that were kept of the
        // client, and with those that are kept of one who is put back: of one who is let go none.
        // By `held`; `Clients::let_go`: `held`.
        ensures clients { Changes (with_client client) key self.old.all self.new.all }
        ensures held { self.new.held
            ≡ held_with (kept_bytes client.peer) (get self.old.all key) self.old.held }
        ensures moment { self.new.now ≡ self.old.now }
    {
        let held = client.held_bytes();
        if let Some(before) = put_in(&mut self.all, key, client) {
            self.held = self.held.saturating_sub(before).saturating_add(held);
        }
    }

    /// Gives a client the response to a request that is refused.
    pub fn refuse(
        &mut self,
        waiting: WaitingClient<TcpStream>,
        refused: Refused,
    ) -> Result<(), AllocError>
        ensures clients { OnOk result (IsRefused self.old.now refused waiting self.old.all
            self.new.all) }
        ensures moment { self.new.now ≡ self.old.now }
    {
        let WaitingClient { key, asked } = waiting;
        let answered = refuse(self.alloc, key, asked, refused, self.now);
        self.give_back(answered, None)
    }

    /// Notes what is told of a client's request.
    pub(crate) fn note_down(&mut self, key: usize, note: Note)
        ensures clients { Changes (λ e. record e { note = Some note }) key self.old.all
            self.new.all }
        ensures moment { self.new.now ≡ self.old.now }
    {
        if let Some(entry) = self.all.get_mut(key) {
            entry.note = Some(note);
        }
    }

    /// Puts a client back that has its response, and notes what is told of its request.
    pub(crate) fn give_back(
        &mut self,
        answered: AnsweredClient<TcpStream>,
        path: Option<String>,
    ) -> Result<(), AllocError>
        ensures clients { OnOk result (IsGivenBack (option_map (λ p. string_bytes p) path) answered
            self.old.all self.new.all) }
        ensures moment { self.new.now ≡ self.old.now }
    {
        let AnsweredClient {
            key,
            client,
            told,
            taken,
        } = answered;
        let note = Note { path, told, taken };
        self.forget_preferred(key);
        self.note_down(key, note);
        match client {
            Some(client) => {
                self.put_back(key, client);
                Ok(self.ready.push(key)?)
            }
            None => {
                self.let_go(key);
                Ok(())
            }
        }
    }

    /// Closes the writing half of a client's stream, whose response was written.
    pub fn linger(&mut self, key: usize, client: Client<TcpStream>) -> Result<(), AllocError>
        ensures clients { Changes (λ e. with_client client (record e { is_told = true })) key
            self.old.all self.new.all }
        ensures moment { self.new.now ≡ self.old.now }
    {
        let _ = client.stream().shutdown(Shutdown::Write);
        self.put_back(key, client);
        self.tell(key, true);
        Ok(self.ready.push(key)?)
    }

    /// Another client's large request may be read first.
    fn forget_preferred(&mut self, key: usize)
        ensures clients { self.new.all ≡ self.old.all }
        ensures held { self.new.held ≡ self.old.held }
        ensures moment { self.new.now ≡ self.old.now }
    {
        if self.preferred == Some(key) {
            self.preferred = None;
        }
    }

    /// Lets go of a client that is at its end.
    pub fn let_go(&mut self, key: usize)
        ensures clients { Updates self.old.all self.new.all key None }
        ensures held { self.new.held ≡ held_with 0 (get self.old.all key) self.old.held }
        ensures moment { self.new.now ≡ self.old.now }
    {
        self.tell(key, false);
        self.count_held(key, 0);
        self.forget_preferred(key);
        let _ = self.all.try_remove(key);
    }

    /// Goes on where memory ran out: those who waited for their responses are let go, and all
    /// others are looked at in the next round.
    pub fn recover(&mut self) {
        self.has_waiting = true;
        self.looks_at_all = true;
        for key in 0..self.all.capacity() {
            let is_lost = match self.all.get(key) {
                Some(entry) => entry.client.is_none(),
                None => false,
            };
            if is_lost {
                self.let_go(key);
            }
        }
    }

    /// Notes that the stream of a client changed.
    pub fn note(&mut self, key: usize, is_broken: bool) -> Result<(), AllocError> {
        if let Some(entry) = self.all.get_mut(key) {
            entry.is_gone = entry.is_gone || is_broken;
            self.ready.push(key)?;
        }
        Ok(())
    }

    /// The next moment at which something is to be done for a client.
    pub fn next_moment(&self) -> u64 {
        if self.looks_at_all || !self.ready.is_empty() || self.may_feed() || self.has_room() {
            return self.now;
        }
        let mut next = u64::MAX;
        if self.has_waiting && self.paused_until > self.now {
            next = self.paused_until;
        }
        for (_, entry) in self.all.iter() {
            if let Some(client) = &entry.client {
                next = u64::min(next, client.deadline());
            }
        }
        next
    }

    /// Closes those whose time is up.
    pub fn close_late(&mut self) -> Result<(), AllocError>
        // Proved: Of the clients just those are let go whose time is up, and nobody where memory
        // runs out.
        // By `left`, `err`, `moment`.
        ensures left { OnOk result ((key : ℕ) → get self.new.all key
            ≡ unless (is_overdue self.old.now) (get self.old.all key)) }
        ensures err { OnErr result (self.new.all ≡ self.old.all) }
        ensures moment { self.new.now ≡ self.old.now }
    {
        let mut late = Vec::new(self.alloc);
        for (key, entry) in self.all.iter() {
            if let Some(client) = &entry.client
                && client.deadline() <= self.now
            {
                late.push(key)?;
            }
        }
        for key in late {
            self.let_go(key);
        }
        Ok(())
    }
}
