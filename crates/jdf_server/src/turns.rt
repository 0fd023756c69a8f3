//! Whose streams changed, and what comes of their turns.

ghost use Rattle.std.specs.Prelude.{◌<◌, length, OnOk};
ghost use Rattle.jdf_server.specs.Requests.{Follows};

use crate::calling::CALLS;
use crate::orders::ORDERS;
use crate::page::PAGE;
use crate::server::{MAX_EVENTS, Server};
use keepers::Locks;
use mio::net::TcpStream;
use peers::Turn;
use rounds::WaitingClient;
use server_clients::LISTENER;
use std::alloc::AllocError;
use std::io::Write;
use std::net::Net;
use std::time::Clock;

impl<'a, R: Locks + Net + Clock, F: Write + Drop> Server<'a, R, F> {
    /// Notes that the stream of a client changed, whose token this is.
    fn note_event(&mut self, token: usize, is_broken: bool) -> Result<(), AllocError> {
        if token == LISTENER {
            self.clients.has_waiting = true;
            return Ok(());
        }
        if token >= ORDERS {
            return self.operators.note(token - ORDERS, is_broken);
        }
        if token >= PAGE {
            return self.readers.note(token - PAGE, is_broken);
        }
        if token >= CALLS {
            return self.note_call(token - CALLS);
        }
        self.clients.note(token - (LISTENER + 1), is_broken)
    }

    /// Notes whose streams changed.
    pub(crate) fn note_events(&mut self) -> Result<(), AllocError> {
        let mut changes = Vec::with_capacity(self.alloc, MAX_EVENTS)?;
        for event in self.events.iter() {
            let is_broken = event.is_error() || event.is_write_closed();
            changes.push((event.token().0, is_broken))?;
        }
        for (token, is_broken) in changes {
            self.note_event(token, is_broken)?;
        }
        Ok(())
    }

    /// Gives each client that may have something its turn.
    pub(crate) fn advance_clients(&mut self, buffer: &mut [u8]) -> Result<(), AllocError>
        requires { 0 < length buffer.old }
    {
        for key in self.clients.take_ready()? {
            if let Some(turn) = self.clients.turn_of(key, buffer)? {
                self.follow(key, turn)?;
            }
        }
        Ok(())
    }

    /// Does what is to be done behind a client's turn.
    fn follow(&mut self, key: usize, turn: Turn<TcpStream>) -> Result<(), AllocError>
        // Proved: A client whose turn came is put back, let go, or taken up by its request, and
        // only what is kept under its own number changes. A request that carries a message is an
        // errand that stands last in the one line to which the message leads, and every other
        // line, the orders of that one, and what it does by itself, stay as they are; where it
        // leads nowhere, the client is put back with 404, and where its sender may not send, with
        // 403. A body that is no message is an errand for the one controller that is served, and
        // in a folder the client is put back with that refusal.
        // By `Server::stand_in_line`, `join`.
        ensures { OnOk result (Follows key turn self.old self.new) }
    {
        match turn {
            Turn::Wait(client) => {
                self.clients.put_back(key, client);
                Ok(())
            }
            Turn::Again(client) => {
                self.clients.put_back(key, client);
                Ok(self.clients.ready.push(key)?)
            }
            Turn::Request(asked, request) => self.stand_in_line(
                WaitingClient { key, asked },
                request,
            ),
            Turn::Refused(asked, refused) => self
                .clients
                .refuse(WaitingClient { key, asked }, refused),
            Turn::Written(client) => self.clients.linger(key, client),
            Turn::Closed => {
                self.clients.let_go(key);
                Ok(())
            }
        }
    }
}
