//! A listener beside the one of messages, and those who come to it. They are held apart from the
//! clients that send messages, and have their turns behind those.

ghost use Rattle.std.specs.Prelude.{◌≡◌, ◌<◌, ℕ, None, length, OnOk, OnErr};
ghost use Rattle.slab.specs.Slab.{Updates, get};
ghost use Rattle.listeners.specs.Guests.{is_late, unless};

use crate::listener::GuestListener;
use crate::wire::Wire;
use http_message::{Received, refused_bytes};
use mio::{Interest, Registry, Token};
use peers::{Client, Limits, OwedClient, Turn};
use slab::Slab;
use std::alloc::{AllocError, Global};
use std::io::{self, ErrorKind};
use std::mem;
use streams::Refused;

/// How many are held at most.
const MOST_GUESTS: usize = 256;

/// For how many milliseconds nobody is accepted where the system fails to give a connection.
const PAUSE: u64 = 100;

/// How many bytes of responses wait at most for who asked before another is made.
const MOST_HELD: usize = 67_108_864;

/// One of them.
#[derive(Drop)]
pub struct Guest<S> {
    /// Nothing while it waits for its response.
    pub client: Option<Client<S>>,
    /// Whether its connection is broken.
    pub is_gone: bool,
}

/// What one of them asked for.
#[derive(Drop)]
pub struct GuestRequest<S> {
    pub key: usize,
    pub asked: OwedClient<S>,
    pub request: Received,
}

/// A listener, where there is one, and all who came to it.
#[derive(Drop)]
pub struct Guests<L: GuestListener> {
    listener: Option<L>,
    /// The token of the listener. That of a guest is one more than its number, behind that.
    first: usize,
    /// Whether the listener may have a connection that wasn't accepted yet.
    has_waiting: bool,
    /// The moment until which none is accepted.
    paused_until: u64,
    held: Slab<Guest<L::Stream>>,
    /// Those whose streams may have something or take something.
    ready: Vec<usize>,
    /// What was asked for and isn't answered, in the order in which it came.
    wanted: Vec<GuestRequest<L::Stream>>,
}

impl<L: GuestListener> Guests<L> {
    /// Nobody can come yet. The listener will have this token.
    pub fn new(alloc: Global, first: usize) -> Guests<L> {
        Guests {
            listener: None,
            first,
            has_waiting: false,
            paused_until: 0,
            held: Slab::new(alloc),
            ready: Vec::new(alloc),
            wanted: Vec::new(alloc),
        }
    }

    /// Takes the listener.
    pub fn open(&mut self, registry: &Registry, mut listener: L) -> io::Result<()> {
        listener.register(registry, self.first)?;
        self.listener = Some(listener);
        self.has_waiting = true;
        Ok(())
    }

    /// Whether somebody can come.
    pub fn is_open(&self) -> bool {
        self.listener.is_some()
    }

    /// Whether one more may be accepted at this moment.
    fn has_room(&self, now: u64) -> bool {
        self.is_open()
            && self.has_waiting
            && self.paused_until <= now
            && self.held.len() < MOST_GUESTS
    }

    /// How many bytes are kept of all.
    fn held_bytes(&self) -> usize {
        let mut held: usize = 0;
        for (_, guest) in self.held.iter() {
            if let Some(client) = &guest.client {
                held = held.saturating_add(client.held_bytes());
            }
        }
        held
    }

    /// The next moment at which something is to be done.
    pub fn next_moment(&self, now: u64) -> u64 {
        let may_answer = !self.wanted.is_empty() && self.held_bytes() < MOST_HELD;
        if may_answer || !self.ready.is_empty() || self.has_room(now) {
            return 0;
        }
        let mut next = u64::MAX;
        if self.has_waiting && self.paused_until > now {
            next = self.paused_until;
        }
        for (_, guest) in self.held.iter() {
            if let Some(client) = &guest.client {
                next = u64::min(next, client.deadline());
            }
        }
        next
    }

    /// Notes that a stream changed, or that somebody waits: by how much its token is above that of
    /// the listener.
    pub fn note(&mut self, token: usize, is_broken: bool) -> Result<(), AllocError> {
        let Some(key) = token.checked_sub(1) else {
            self.has_waiting = true;
            return Ok(());
        };
        if let Some(guest) = self.held.get_mut(key) {
            guest.is_gone = guest.is_gone || is_broken;
            self.ready.push(key)?;
        }
        Ok(())
    }

    /// Notes that no connection was given, for this.
    fn note_none(&mut self, error: &io::Error, now: u64) {
        match error.kind() {
            ErrorKind::WouldBlock => self.has_waiting = false,
            ErrorKind::Interrupted | ErrorKind::ConnectionAborted => {}
            _ => self.paused_until = now.saturating_add(PAUSE),
        }
    }

    /// Takes a connection among them. Where memory runs out it is closed.
    fn admit(
        &mut self,
        alloc: Global,
        registry: &Registry,
        limits: Limits,
        mut stream: L::Stream,
        now: u64,
    ) -> io::Result<()> {
        let key = self.held.vacant_key();
        let token = Token(key.saturating_add(1).saturating_add(self.first));
        let interest = Interest::READABLE | Interest::WRITABLE;
        registry.register(&mut stream, token, interest)?;
        let client = Client::new(alloc, limits, stream, now);
        self.ready.push(key)?;
        self.held.insert(Guest {
            client: Some(client),
            is_gone: false,
        })?;
        Ok(())
    }

    /// Accepts one who waits. Answers whether another may wait.
    fn accept(&mut self, alloc: Global, registry: &Registry, now: u64) -> bool {
        let Some(listener) = &self.listener else {
            return false;
        };
        match listener.accept() {
            Ok(stream) => {
                let limits = listener.limits();
                let _ = self.admit(alloc, registry, limits, stream, now);
                true
            }
            Err(error) => {
                self.note_none(&error, now);
                false
            }
        }
    }

    /// Accepts those who wait, as many as there is room for.
    pub fn accept_all(&mut self, alloc: Global, registry: &Registry, now: u64) {
        for _ in 0..MOST_GUESTS {
            if !self.has_room(now) || !self.accept(alloc, registry, now) {
                return;
            }
        }
    }

    /// A connection, taken out of its place.
    fn take_out(&mut self, key: usize) -> Option<Client<L::Stream>> {
        let guest = self.held.get_mut(key)?;
        guest.client.take()
    }

    fn put_back(&mut self, key: usize, client: Client<L::Stream>) {
        if let Some(guest) = self.held.get_mut(key) {
            guest.client = Some(client);
        }
    }

    /// Lets go of one.
    pub fn let_go(&mut self, key: usize)
        ensures guests { Updates self.old.held self.new.held key None }
        ensures rest { self.new ≡ record self.old { held = self.new.held } }
    {
        let _ = self.held.try_remove(key);
    }

    /// Whether a connection is broken, or isn't there.
    pub fn is_gone(&self, key: usize) -> bool {
        match self.held.get(key) {
            Some(guest) => guest.is_gone,
            None => true,
        }
    }

    /// Puts one back that has its response, if there was memory for that.
    pub fn give_back(
        &mut self,
        key: usize,
        client: Option<Client<L::Stream>>,
    ) -> Result<(), AllocError> {
        match client {
            Some(client) => {
                self.put_back(key, client);
                Ok(self.ready.push(key)?)
            }
            None => {
                self.let_go(key);
                Ok(())
            }
        }
    }

    /// Gives one its response.
    pub fn answer(
        &mut self,
        key: usize,
        asked: OwedClient<L::Stream>,
        response: &[u8],
        now: u64,
    ) -> Result<(), AllocError> {
        let client = asked.answer(response, now).ok();
        self.give_back(key, client)
    }

    /// Tells one that its request is refused.
    pub fn refuse(
        &mut self,
        alloc: Global,
        key: usize,
        asked: OwedClient<L::Stream>,
        refused: &Refused,
        now: u64,
    ) -> Result<(), AllocError> {
        let Some(listener) = &self.listener else {
            drop(asked);
            return Ok(());
        };
        let response = refused_bytes(alloc, listener.limits().methods, refused)?;
        self.answer(key, asked, response.as_slice(), now)
    }

    /// Does what is to be done behind a turn.
    fn follow(
        &mut self,
        alloc: Global,
        key: usize,
        turn: Turn<L::Stream>,
        now: u64,
    ) -> Result<(), AllocError> {
        match turn {
            Turn::Wait(client) => {
                self.put_back(key, client);
                Ok(())
            }
            Turn::Again(client) => {
                self.put_back(key, client);
                Ok(self.ready.push(key)?)
            }
            Turn::Request(asked, request) => {
                self.wanted.push(GuestRequest {
                    key,
                    asked,
                    request,
                })?;
                Ok(())
            }
            Turn::Refused(asked, refused) => self.refuse(alloc, key, asked, &refused, now),
            Turn::Written(client) => {
                client.stream().end();
                self.put_back(key, client);
                Ok(self.ready.push(key)?)
            }
            Turn::Closed => {
                self.let_go(key);
                Ok(())
            }
        }
    }

    /// Gives each that may have something its turn.
    pub fn advance(&mut self, alloc: Global, buffer: &mut [u8], now: u64) -> Result<(), AllocError>
        // Wants: room for a byte or more.
        requires { 0 < length buffer.old }
    {
        let ready = mem::replace(&mut self.ready, Vec::new(alloc));
        for key in ready {
            if let Some(client) = self.take_out(key) {
                let turn = client.advance(alloc, buffer, now);
                self.follow(alloc, key, turn, now)?;
            }
        }
        Ok(())
    }

    /// What was asked for, where there is room for what is made of it.
    pub fn take_wanted(&mut self, alloc: Global) -> Vec<GuestRequest<L::Stream>> {
        if self.held_bytes() < MOST_HELD {
            mem::replace(&mut self.wanted, Vec::new(alloc))
        } else {
            Vec::new(alloc)
        }
    }

    /// Has one wait on.
    pub fn put_off(&mut self, wanted: GuestRequest<L::Stream>) -> Result<(), AllocError> {
        self.wanted.push(wanted)?;
        Ok(())
    }

    /// Lets go of those whose time is up.
    pub fn close_late(&mut self, alloc: Global, now: u64) -> Result<(), AllocError>
        // Proved: Of those who look at the page or give orders just those are let go whose time is
        // up: nobody else, and nobody where memory runs out.
        // By `left`, `rest`, `err`; `Guests::let_go`: `guests`, `rest`.
        ensures left { OnOk result ((key : ℕ) → get self.new.held key
            ≡ unless (is_late now) (get self.old.held key)) }
        ensures rest { self.new ≡ record self.old { held = self.new.held } }
        ensures err { OnErr result (self.new.held ≡ self.old.held) }
    {
        let mut late = Vec::new(alloc);
        for (key, guest) in self.held.iter() {
            if let Some(client) = &guest.client
                && client.deadline() <= now
            {
                late.push(key)?;
            }
        }
        for key in late {
            self.let_go(key);
        }
        Ok(())
    }

    /// Goes on where memory ran out: all are let go.
    pub fn recover(&mut self) {
        self.wanted.clear();
        self.ready.clear();
        self.held.clear();
        self.has_waiting = true;
    }
}
