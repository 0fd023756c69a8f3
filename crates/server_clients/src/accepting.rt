//! Connections that come.

use crate::clients::Clients;
use crate::entry::Entry;
use listeners::Listener;
use mio::net::TcpStream;
use mio::{Interest, Registry, Token};
use peers::Client;
use std::io::{self, ErrorKind, Write};
use std::net::SocketAddr;

/// For how many milliseconds nothing is accepted where the system fails to give a connection.
const PAUSE: u64 = 100;

/// The token of the listener. That of a client is one more than its number.
pub const LISTENER: usize = 0;

impl<'a, R, F: Write + Drop> Clients<'a, R, F> {
    /// Whether a connection may be accepted now.
    pub(crate) fn has_room(&self) -> bool {
        self.has_waiting
            && self.left != Some(0)
            && self.paused_until <= self.now
            && self.all.len() < self.most
    }

    /// Takes a connection among the clients. Where memory runs out, or the system can't tell when
    /// it is ready, it is closed.
    fn admit(
        &mut self,
        registry: &Registry,
        mut stream: TcpStream,
        address: SocketAddr,
    ) -> io::Result<()> {
        let key = self.all.vacant_key();
        let token = Token(key.saturating_add(LISTENER + 1));
        let interest = Interest::READABLE | Interest::WRITABLE;
        registry.register(&mut stream, token, interest)?;
        let client = Client::new(self.alloc, self.listener.limits(), stream, self.now);
        let entry = Entry {
            address,
            since: self.now,
            client: Some(client),
            is_gone: false,
            note: None,
            is_told: false,
            held: 0,
        };
        self.ready.push(key)?;
        self.all.insert(entry)?;
        Ok(())
    }

    /// Accepts the connections that wait, as many as there is room for.
    pub fn accept_all(&mut self, registry: &Registry) {
        for _ in 0..self.most {
            if !self.has_room() {
                return;
            }
            match self.listener.listener.accept() {
                Ok((stream, address)) => {
                    self.left = self.left.map(|left| left.saturating_sub(1));
                    let _ = self.admit(registry, stream, address);
                }
                Err(error) => match error.kind() {
                    ErrorKind::WouldBlock => self.has_waiting = false,
                    ErrorKind::Interrupted | ErrorKind::ConnectionAborted => {}
                    _ => self.paused_until = self.now.saturating_add(PAUSE),
                },
            }
        }
    }
}
