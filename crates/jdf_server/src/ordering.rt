//! What comes of orders, for those who gave them over the local socket.

ghost use Rattle.std.specs.Prelude.{◌≡◌};

use crate::server::Server;
use http_message::missing_bytes;
use journal::FileJournal;
use keepers::Locks;
use mio::net::UnixStream;
use rounds::{AnsweredOperator, Errand, WaitingClient, late_and_waiting};
use server_post::Line;
use server_steps::{OrdersResult, order_at, refused_orders};
use shop_folder::Owner;
use std::alloc::{AllocError, Global};
use std::io::Write;
use std::net::Net;
use std::time::Clock;
use streams::Refused;

/// The number of who gave an order.
fn key_of(order: Errand<UnixStream>) -> usize
    ensures { result ≡ order.waiting.key }
{
    order.waiting.key
}

/// Who gave an order.
fn giver_of(order: Errand<UnixStream>) -> WaitingClient<UnixStream>
    ensures { result ≡ order.waiting }
{
    order.waiting
}

impl<'a, R: Locks + Net + Clock, F: Write + Drop> Server<'a, R, F> {
    /// Those of these orders whose givers are there still. The others are let go.
    fn orders_there(
        &mut self,
        orders: Vec<Errand<UnixStream>>,
    ) -> Result<Vec<Errand<UnixStream>>, AllocError>
        ensures { self.new.clients.all ≡ self.old.clients.all }
    {
        let mut there = Vec::with_capacity(self.alloc, orders.len())?;
        for order in orders {
            if self.operators.is_gone(order.waiting.key) {
                self.operators.let_go(key_of(order));
            } else {
                there.push(order)?;
            }
        }
        Ok(there)
    }

    /// Puts one back that has its response, and writes its line.
    fn give_operator_back(
        &mut self,
        path: &str,
        ordered: AnsweredOperator<UnixStream>,
    ) -> Result<(), AllocError>
        ensures clients { self.new.clients.all ≡ self.old.clients.all }
        ensures rest { (self.new.clients.now ≡ self.old.clients.now)
            × (self.new.lines ≡ self.old.lines) }
    {
        self.clients.tell_order(path, &ordered);
        let AnsweredOperator { key, client, .. } = ordered;
        self.operators.give_back(key, client)
    }

    /// The same of all of these.
    fn give_operators_back(
        &mut self,
        path: &str,
        all: Vec<AnsweredOperator<UnixStream>>,
    ) -> Result<(), AllocError>
        ensures clients { self.new.clients.all ≡ self.old.clients.all }
        ensures rest { (self.new.clients.now ≡ self.old.clients.now)
            × (self.new.lines ≡ self.old.lines) }
    {
        for one in all {
            self.give_operator_back(path, one)?;
        }
        Ok(())
    }

    /// Tells each of them that there is no such controller.
    fn miss_orders(&mut self, orders: Vec<Errand<UnixStream>>) -> Result<(), AllocError>
        ensures { self.new.clients.all ≡ self.old.clients.all }
    {
        let response = missing_bytes(self.alloc)?;
        for order in orders {
            let WaitingClient { key, asked } = giver_of(order);
            let (response, now) = (response.as_slice(), self.clients.now);
            self.operators.answer(key, asked, response, now)?;
        }
        Ok(())
    }

    /// Refuses those of these orders that waited as long as they may, and gives the rest.
    pub(crate) fn refuse_late_orders(
        &mut self,
        path: &str,
        orders: Vec<Errand<UnixStream>>,
    ) -> Result<Vec<Errand<UnixStream>>, AllocError>
        ensures clients { self.new.clients.all ≡ self.old.clients.all }
        ensures rest { (self.new.clients.now ≡ self.old.clients.now)
            × (self.new.lines ≡ self.old.lines) }
    {
        let (left, late) = late_and_waiting(self.alloc, orders, self.clients.now)?;
        let told = refused_orders(self.alloc, late, Refused::LoadFailed, self.clients.now)?;
        self.give_operators_back(path, told)?;
        Ok(left)
    }

    /// Has those orders of a line wait on, whose file somebody else has locked, but for those that
    /// waited as long as they may.
    fn keep_orders(
        &mut self,
        path: &str,
        to: &Owner,
        orders: Vec<Errand<UnixStream>>,
    ) -> Result<(), AllocError>
        ensures { self.new.clients.all ≡ self.old.clients.all }
    {
        let left = self.refuse_late_orders(path, orders)?;
        if left.is_empty() {
            return Ok(());
        }
        if let Some(line) = self.lines.get_mut(path) {
            for order in left {
                line.orders.push(order)?;
            }
            return Ok(());
        }
        let mut line = Line::new(self.alloc, to.copy(self.alloc)?);
        line.orders = left;
        self.lines
            .insert(String::from_str(self.alloc, path)?, line)?;
        Ok(())
    }

    /// Has a controller make the steps by these orders. Where somebody else has its file locked,
    /// they wait on.
    pub(crate) fn step_orders(
        &mut self,
        path: &str,
        to: &Owner,
        orders: Vec<Errand<UnixStream>>,
    ) -> Result<(), AllocError>
        ensures { self.new.clients.all ≡ self.old.clients.all }
    {
        let orders = self.orders_there(orders)?;
        if orders.is_empty() {
            return Ok(());
        }
        if self.is_missing(path) {
            return self.miss_orders(orders);
        }
        let last = self.saved.take(path);
        let mut journal = FileJournal::at(self.rt, self.journal);
        let stepped = order_at(
            self.rt,
            self.alloc,
            path,
            last,
            to.as_addressee(),
            orders,
            self.clients.now,
            &mut self.engine,
            &mut journal,
        )?;
        self.clients.tell_missed(&journal);
        match stepped {
            OrdersResult::Told(told, saved) => {
                self.give_operators_back(path, told)?;
                self.keep_saved(path, to, saved)
            }
            OrdersResult::LockedOut(orders, last) => {
                self.keep_last(path, last)?;
                self.is_locked_out = true;
                self.keep_orders(path, to, orders)
            }
        }
    }
}
