ghost use Rattle.std.specs.Prelude.{◌≡◌};
ghost use Rattle.listeners.specs.Limits.{guest_limits};

use crate::listener::{GuestListener, Listener};
use http_message::Methods;
use mio::net::{TcpListener, TcpStream};
use mio::{Interest, Registry, Token};
use peers::Limits;
use std::io;

/// Where the shop is looked at, with a browser or by a monitor.
#[derive(Drop)]
pub struct PageListener {
    pub listener: TcpListener,
}

impl Listener for PageListener {
    ghost use Rattle.http_message.specs.declared.methods.Methods.TheVariants.{GetOrHead};

    ghost methods = { GetOrHead };

    fn limits(&self) -> Limits
        // Proved: The connections of those who look at the page or give orders have limits that are
        // always the same: one who sends nothing is closed within 5 seconds.
        // By `OrderListener::limits`.
        ensures { result ≡ guest_limits GetOrHead 0 }
    {
        Limits {
            methods: Methods::GetOrHead,
            request: 5_000,
            step: 30_000,
            write: 10_000,
            linger: 1_000,
            spare: 16_384,
            body: 0,
        }
    }

    fn register(&mut self, registry: &Registry, token: usize) -> io::Result<()> {
        registry.register(&mut self.listener, Token(token), Interest::READABLE)
    }
}

impl GuestListener for PageListener {
    type Stream = TcpStream;

    fn accept(&self) -> io::Result<TcpStream> {
        let (stream, _) = self.listener.accept()?;
        Ok(stream)
    }
}
