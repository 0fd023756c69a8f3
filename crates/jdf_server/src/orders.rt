//! Orders over a local socket: those who give them, and look at what is where.

ghost use Rattle.std.specs.Prelude.{◌≡◌, IfOk, OnOk};
ghost use Rattle.jdf_server.specs.Lines.{JoinsOrders};
ghost use Rattle.jdf_server.specs.Orders.{TakesOrder};

use crate::page::PAGES_TIME;
use crate::server::Server;
use http_message::{Body, Method, Received, missing_bytes, path_of};
use indexmap::IndexMap;
use keepers::Locks;
use listeners::GuestRequest;
use mio::net::UnixStream;
use rounds::{Errand, WaitingClient};
use server_post::Line;
use server_steps::{Route, named_route};
use std::alloc::{Alloc, AllocError, Global};
use std::io::Write;
use std::net::Net;
use std::time::Clock;
use stored_state::Coming;

/// The token of the listener for orders. That of who gives one is one more than its number. The
/// page and its readers have lower ones.
pub(crate) const ORDERS: usize = 17_179_869_184;

/// The bytes of a body.
fn bytes_of(alloc: Global, body: &Body) -> Result<Vec<u8>, AllocError>
    ensures { IfOk result (λ bytes. bytes.items ≡ body.now) }
{
    Vec::from_slice(alloc, body.as_slice())
}

/// Puts an order in the line of the controller in the file of this route.
fn join_order(
    alloc: Global,
    lines: &mut IndexMap<String, Line>,
    route: Route,
    order: Errand<UnixStream>,
) -> Result<(), AllocError>
    ensures { OnOk result (JoinsOrders route order lines.old lines.new) }
{
    let Route { path, to } = route;
    if let Some(line) = lines.get_mut(path.as_str()) {
        line.orders.push(order)?;
        return Ok(());
    }
    let mut line = Line::new(alloc, to);
    line.orders.push(order)?;
    lines.insert(path, line)?;
    Ok(())
}

impl<'a, R: Locks + Net + Clock + Alloc + Clone + Drop, F: Write + Drop> Server<'a, R, F> {
    /// Takes an order for the controller of a name, if one is there.
    fn take_order(
        &mut self,
        waiting: WaitingClient<UnixStream>,
        name: &str,
        body: &Body,
    ) -> Result<(), AllocError>
        // Proved: An order for the controller of a name stands last in the line of the one to which
        // that leads, and all else in the lines is as it was; where it leads nowhere no line
        // changes.
        // By `join_order`.
        ensures { OnOk result (TakesOrder waiting name.now body.now self.old self.new) }
    {
        match named_route(self.rt, self.alloc, &self.place, name, &mut self.engine)? {
            Some(route) => {
                let coming = Coming::Order(bytes_of(self.alloc, body)?);
                join_order(
                    self.alloc,
                    &mut self.lines,
                    route,
                    Errand { waiting, coming },
                )
            }
            None => {
                let response = missing_bytes(self.alloc)?;
                let WaitingClient { key, asked } = waiting;
                let (response, now) = (response.as_slice(), self.clients.now);
                self.operators.answer(key, asked, response, now)
            }
        }
    }

    /// Does what one of them asked for, or has it done.
    fn take_asked(&mut self, wanted: GuestRequest<UnixStream>) -> Result<(), AllocError> {
        let GuestRequest {
            key,
            asked,
            request,
        } = wanted;
        let Received {
            method,
            target,
            body,
            ..
        } = request;
        let path = path_of(target.as_slice());
        if method == Some(Method::Post) {
            let name = path.strip_prefix(b"/").unwrap_or(path);
            let name = str::from_utf8(name).unwrap_or("");
            return self.take_order(WaitingClient { key, asked }, name, &body);
        }
        let response = self.looked_response(path)?;
        let (response, now) = (response.as_slice(), self.clients.now);
        self.operators.answer(key, asked, response, now)
    }

    /// Takes the orders that came, and answers those who look, as long as there is time.
    pub(crate) fn take_orders(&mut self) -> Result<(), AllocError> {
        let wanted = self.operators.take_wanted(self.alloc);
        let mut last = self.moments.now(self.rt, self.clients.now);
        let until = last.saturating_add(PAGES_TIME);
        for one in wanted {
            if last < until {
                self.take_asked(one)?;
                last = self.moments.now(self.rt, last);
            } else {
                self.operators.put_off(one)?;
            }
        }
        Ok(())
    }
}
