//! A server in its beginning.

ghost use Rattle.std.specs.Prelude.{◌≡◌, IfOk};
ghost use Rattle.jdf_server.specs.Beginning.{AreClientsOf, IsBegun, ServesOn};

use crate::health::Health;
use crate::orders::ORDERS;
use crate::page::PAGE;
use crate::server::{MAX_EVENTS, Server};
use crate::service::Service;
use http_message::Methods;
use indexmap::IndexMap;
use keepers::Locks;
use listeners::{Guests, Listener, Log, MessageListener, Moments, OrderListener, PageListener};
use mio::net::TcpListener;
use mio::{Events, Poll};
use peers::Limits;
use rounds::SavedStates;
use server_clients::{Clients, LISTENER};
use server_post::Post;
use server_steps::{ControllerViews, Engine};
use shop_folder::Place;
use shop_page::Counts;
use slab::Slab;
use std::alloc::{Alloc, Global};
use std::io::{self, Write};
use std::net::{Net, SocketAddr};
use std::rt::Files;
use std::time::Clock;

/// How many milliseconds what a client still sends is read for, once it has its response.
const LINGER_TIME: u64 = 2_000;

/// How many bytes of that are read at most.
const MAX_SPARE: usize = 524_288;

/// How many bytes of memory a kept controller takes, some, for each byte of its state's text.
const KEPT_FACTOR: usize = 5;

/// The limits of a client's connection.
fn limits_of(service: &Service<'_>) -> Limits {
    let limit = service.limits.seconds.saturating_mul(1_000);
    Limits {
        methods: Methods::Post,
        request: limit,
        step: limit,
        write: limit,
        linger: u64::min(limit, LINGER_TIME),
        spare: MAX_SPARE,
        body: u32::try_from(service.limits.body).unwrap_or(u32::MAX),
    }
}

/// The clients of a server that has none yet.
fn clients<'a, R, F: Write + Drop>(
    rt: &'a R,
    alloc: Global,
    service: &Service<'a>,
    place: Place<'a>,
    listener: MessageListener,
    log: Log<F>,
) -> Clients<'a, R, F>
    ensures { AreClientsOf service.now place.entry result }
{
    Clients {
        rt,
        alloc,
        place,
        now: 0,
        listener,
        has_waiting: true,
        paused_until: 0,
        left: service.requests,
        most: usize::try_from(service.limits.clients).unwrap_or(usize::MAX),
        all: Slab::new(alloc),
        ready: Vec::new(alloc),
        looks_at_all: false,
        starved: Vec::new(alloc),
        preferred: None,
        held: 0,
        most_held: half_of(service),
        counts: Counts::new(),
        log,
    }
}

/// Half of the memory that a server may take, in bytes.
fn half_of(service: &Service<'_>) -> usize {
    usize::try_from(service.limits.memory / 2).unwrap_or(usize::MAX)
}

/// A server with this log, which listens, has no client yet, and sends nothing.
fn server<'a, R: Locks + Net + Clock + Alloc + Clone + Drop, F: Write + Drop>(
    rt: &'a R,
    alloc: Global,
    service: &Service<'a>,
    place: Place<'a>,
    listener: TcpListener,
    log: Log<F>,
) -> io::Result<Server<'a, R, F>>
    ensures { IfOk result (IsBegun service.now place.entry) }
{
    let poll = Poll::new(rt)?;
    let moments = Moments::begin(rt)?;
    let events = Events::with_capacity(alloc, MAX_EVENTS)?;
    let saved = SavedStates::new(alloc, half_of(service) / KEPT_FACTOR)?;
    let mut listener = MessageListener {
        listener,
        limits: limits_of(service),
    };
    listener.register(poll.registry(), LISTENER)?;
    Ok(Server {
        rt,
        alloc,
        place,
        sender_field: service.sender_field,
        journal: service.journal,
        moments,
        poll,
        events,
        clients: clients(rt, alloc, service, place, listener, log),
        readers: Guests::new(alloc, PAGE),
        operators: Guests::new(alloc, ORDERS),
        health: Health::new(),
        engine: Engine::new(),
        lines: IndexMap::new(alloc),
        is_locked_out: false,
        saved,
        watched: ControllerViews::new(alloc),
        post: None,
    })
}

impl<'a, R: Locks + Net + Clock + Alloc + Clone + Drop, F: Write + Drop> Server<'a, R, F> {
    /// A server that takes messages of a listener. It has no client yet, and sends nothing; its log
    /// goes to the writer.
    pub fn new(
        rt: &'a R,
        alloc: Global,
        service: &Service<'a>,
        place: Place<'a>,
        listener: TcpListener,
        writer: F,
    ) -> io::Result<Server<'a, R, F>>
        // Proved: A server begins at what lies at its place, with as many requests as are asked
        // for, and nothing goes out; opening its page, its orders or its post changes no client
        // who sends messages and no line.
        // By `Server::open_page`, `Server::open_orders`, `Server::send_by`: `serves`, `post`.
        ensures { IfOk result (IsBegun service.now place.entry) }
    {
        let log = Log::new(rt, alloc, writer)?;
        server(rt, alloc, service, place, listener, log)
    }
}

impl<'a, R: Files + Net, F> Server<'a, R, F> {
    /// The address at which it listens for messages.
    pub fn listens_at(&self) -> io::Result<SocketAddr> {
        self.clients.listener.listener.local_addr()
    }

    /// Has it show its page to those who come to this listener.
    pub fn open_page(&mut self, listener: TcpListener) -> io::Result<()>
        ensures serves { ServesOn self.old self.new }
        ensures post { self.new.post ≡ self.old.post }
    {
        let listener = PageListener { listener };
        self.readers.open(self.poll.registry(), listener)
    }

    /// Has it take orders over a local socket of this path. Refuses where somebody listens there,
    /// and where something else lies there.
    pub fn open_orders(&mut self, path: &str) -> io::Result<()>
        ensures serves { ServesOn self.old self.new }
        ensures post { self.new.post ≡ self.old.post }
    {
        let listener = OrderListener::at(self.rt, path)?;
        self.operators.open(self.poll.registry(), listener)
    }

    /// Has what is out go to its receivers by itself, where it is known where they are.
    pub fn send_by(&mut self, post: Option<Post>)
        ensures serves { ServesOn self.old self.new }
        ensures post { self.new.post ≡ post }
    {
        self.post = post;
    }
}
