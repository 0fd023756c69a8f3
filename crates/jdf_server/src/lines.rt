//! The lines of the clients whose requests wait: whose turn it is, and what comes of them.

ghost use Rattle.std.specs.Prelude.{◌≡◌, ◌&&◌, None, Some, OnOk, not, string_bytes, true};
ghost use Rattle.jdf_server.specs.Lines.{Joins, queue_of};
ghost use Rattle.jdf_server.specs.Requests.{MaySend, Stands, StandsInLine};
ghost use Rattle.jdf_server.specs.Requests.{StandsOrMisses, StandsWith};
ghost use Rattle.jdf_server.specs.Requests.{IsKnown, IsOfPage, IsTold, StandsWithout};
ghost use Rattle.jdf_server.specs.Turns.{MayBegin, StepsLineTo, StepsThere, WaitsOn};
ghost use Rattle.jdf_server.specs.Turns as turns;
ghost use Rattle.std.specs.List.{list_any};
ghost use Rattle.std.specs.Option.{option_map};

use crate::server::Server;
use controller::{Body, Message};
use http_edge::Received;
use http_message::lone_field;
use indexmap::IndexMap;
use jmf_message::decode;
use journal::FileJournal;
use keepers::Locks;
use mio::net::{TcpStream, UnixStream};
use rounds::{Errand, SavedStates, WaitingClient};
use server_clients::gone_and_there;
use server_post::{Line, Own, Post, hear_all};
use server_steps::{Route, StepsResult, begin_at, is_missing_at, route_of, step_at};
use shop_folder::{Owner, Place};
use std::alloc::{AllocError, Global};
use std::io::Write;
use std::mem;
use std::net::Net;
use std::time::Clock;
use stored_state::{Coming, SavedState};
use streams::Refused;
use ticket_items::Refusal;

/// For how many milliseconds steps are made in one round, so that clients who send and read are
/// served between them.
const STEPS_TIME: u64 = 100;

/// Whether a worker is begun by what comes: a part, or that one is to be given up.
fn is_begun_by(coming: &Coming) -> bool
    ensures { result ≡ turns.is_begun_by coming.now }
{
    match coming {
        Coming::Message(message) => match message.body {
            Body::Submit(_) | Body::Abort(_) => true,
            Body::Return(_) | Body::Answer { .. } => false,
        },
        Coming::Order(_) | Coming::Neither(_) => false,
    }
}

/// Whether a worker is begun by what comes with one of these errands.
fn some_begins(errands: &[Errand<TcpStream>]) -> bool
    ensures { result ≡ list_any (λ e. turns.is_begun_by e.coming) errands.now }
{
    errands.iter().any(|one| is_begun_by(&one.coming))
}

/// Whether the field of this name in a head tells the sender, where one is to.
fn tells(field: Option<&str>, head: &[u8], sender: &str) -> bool
    ensures { IsTold (option_map (λ name. name.now) field.entry) head.now sender.now result }
{
    let Some(name) = field else {
        return true;
    };
    match lone_field(head, name.as_bytes()) {
        Some(told) => told == sender.as_bytes(),
        None => false,
    }
}

/// Whether a sender is among the other controllers, where they are known.
fn knows(post: &Option<Post>, sender: &str) -> bool
    ensures { IsKnown (option_map (λ one. one.peers) post.now) sender.now result }
{
    match post {
        Some(post) => post.peers.knows(sender),
        None => true,
    }
}

/// Whether a page in a browser sends what has this head.
fn is_of_page(head: &[u8]) -> bool
    ensures { IsOfPage head.now result }
{
    lone_field(head, b"Origin").is_some()
}

/// Whether one may send who is told of, is known, and is no page in a browser.
fn all_allow(is_told: bool, is_known: bool, is_of_page: bool) -> bool
    ensures { result ≡ is_told && is_known && not is_of_page }
{
    is_told && is_known && !is_of_page
}

/// Keeps what a file held last, where that is known.
pub(crate) fn keep_in(
    alloc: Global,
    saved: &mut SavedStates,
    path: &str,
    last: Option<SavedState>,
) -> Result<(), AllocError> {
    match last {
        Some(last) => saved.keep(String::from_str(alloc, path)?, last),
        None => Ok(()),
    }
}

/// Puts an errand behind those that wait for the controller of this route.
fn join(
    alloc: Global,
    lines: &mut IndexMap<String, Line>,
    route: Route,
    errand: Errand<TcpStream>,
) -> Result<(), AllocError>
    ensures { OnOk result (Joins route errand lines.old lines.new) }
{
    let Route { path, to } = route;
    if let Some(line) = lines.get_mut(path.as_str()) {
        line.errands.push(errand)?;
        return Ok(());
    }
    let mut line = Line::new(alloc, to);
    line.errands.push(errand)?;
    lines.insert(path, line)?;
    Ok(())
}

impl<'a, R: Locks + Net + Clock, F: Write + Drop> Server<'a, R, F> {
    /// Puts a client in the line of the controller to which its request leads.
    pub(crate) fn stand_in_line(
        &mut self,
        waiting: WaitingClient<TcpStream>,
        request: Received,
    ) -> Result<(), AllocError>
        ensures { OnOk result (StandsInLine waiting request self.old self.new) }
    {
        let Received { head, body, .. } = request;
        match decode(self.alloc, body.as_slice()) {
            Ok(message) => self.stand_with(waiting, message, head.as_slice()),
            Err(refusal) => self.stand_without(waiting, refusal),
        }
    }

    /// The same of one whose request carries this message, if its sender may send here.
    fn stand_with(
        &mut self,
        waiting: WaitingClient<TcpStream>,
        message: Message,
        head: &[u8],
    ) -> Result<(), AllocError>
        ensures { OnOk result (StandsWith waiting message head.now self.old self.new) }
    {
        if self.may_send(message.sender.as_str(), head) {
            self.stand_or_miss(waiting, message)
        } else {
            self.clients.refuse(waiting, Refused::Forbidden)
        }
    }

    /// The same of one whose sender may.
    fn stand_or_miss(
        &mut self,
        waiting: WaitingClient<TcpStream>,
        message: Message,
    ) -> Result<(), AllocError>
        ensures { OnOk result (StandsOrMisses waiting message self.old self.new) }
    {
        match route_of(self.rt, self.alloc, &self.place, &message, &mut self.engine)? {
            Some(route) => self.stand(route, waiting, Coming::Message(message)),
            None => self.clients.miss(waiting),
        }
    }

    /// The same of one whose request carries no message: where one controller is served it hears of
    /// that, and else the client is refused.
    fn stand_without(
        &mut self,
        waiting: WaitingClient<TcpStream>,
        refusal: Refusal,
    ) -> Result<(), AllocError>
        ensures { OnOk result (StandsWithout self.old.place waiting refusal self.old self.new) }
    {
        match self.place {
            Place::File(file) => {
                let route = Route {
                    path: String::from_str(self.alloc, file)?,
                    to: Owner::Any,
                };
                self.stand(route, waiting, Coming::Neither(refusal))
            }
            Place::Folder(_) => self.clients.refuse(waiting, Refused::Core(refusal)),
        }
    }

    /// Puts a client in a line, for what has come.
    fn stand(
        &mut self,
        route: Route,
        waiting: WaitingClient<TcpStream>,
        coming: Coming,
    ) -> Result<(), AllocError>
        ensures { OnOk result (Stands route waiting coming self.old self.new) }
    {
        join(
            self.alloc,
            &mut self.lines,
            route,
            Errand { waiting, coming },
        )
    }

    /// Whether a sender may send here: where a field of the head tells who sends, it tells this
    /// one, where the other controllers are known it is one of them, and no page in a browser sends
    /// it, since anybody's page could.
    fn may_send(&self, sender: &str, head: &[u8]) -> bool
        // Proved: A sender may send just if the field of the head that is to tell who sends tells
        // this one, the peers' file, where there is one, has a URL for it, and the head doesn't
        // tell that a page in a browser sends it.
        ensures { MaySend self.entry.now head.now sender.now result }
    {
        let is_told = tells(self.sender_field, head, sender);
        let is_known = knows(&self.post, sender);
        let is_of_page = is_of_page(head);
        all_allow(is_told, is_known, is_of_page)
    }

    /// Whether a folder has no file of this path.
    pub(crate) fn is_missing(&self, path: &str) -> bool {
        match self.place {
            Place::File(_) => false,
            Place::Folder(_) => is_missing_at(self.rt, self.alloc, path, self.engine),
        }
    }

    /// Begins the controller of a line that isn't there: a worker for one more of many masters, by
    /// the first command that comes from it, where the other controllers are known. Answers whether
    /// it is there.
    fn begins(&self, path: &str, to: &Owner, errands: &[Errand<TcpStream>]) -> bool
        // Proved: A controller is begun only where other controllers are known, where it is a
        // worker, and by a command for one.
        ensures { result ≡ true → MayBegin self.now to.now errands.now }
    {
        if self.post.is_none() || !some_begins(errands) {
            return false;
        }
        match to {
            Owner::WorkerOf(name, master) => { begin_at(self.rt, self.alloc, path, name, master) }
            Owner::Any | Owner::Named(_) => false,
        }
    }

    /// Keeps what a file held last, where that is known.
    pub(crate) fn keep_last(
        &mut self,
        path: &str,
        last: Option<SavedState>,
    ) -> Result<(), AllocError>
        ensures clients { self.new.clients.all ≡ self.old.clients.all }
        ensures rest { (self.new.clients.now ≡ self.old.clients.now)
            × (self.new.lines ≡ self.old.lines) }
    {
        keep_in(self.alloc, &mut self.saved, path, last)
    }

    /// Has those of a line wait on, whose file somebody else has locked, but for those who waited
    /// as long as they may.
    fn wait_on(
        &mut self,
        path: String,
        line: Line,
        last: Option<SavedState>,
    ) -> Result<(), AllocError>
        ensures { OnOk result (WaitsOn (string_bytes path) (queue_of line) self.old self.new) }
    {
        self.keep_last(path.as_str(), last)?;
        self.is_locked_out = true;
        let Line {
            to,
            errands,
            orders,
            own,
        } = line;
        let errands = self.clients.refuse_late(errands, path.as_str())?;
        let orders = self.refuse_late_orders(path.as_str(), orders)?;
        if !errands.is_empty() || !orders.is_empty() || !own.is_empty() {
            let line = Line {
                to,
                errands,
                orders,
                own,
            };
            self.lines.insert(path, line)?;
        }
        Ok(())
    }

    /// Has a controller make the steps by orders, and what is to be done for what goes out from it.
    fn step_beside(
        &mut self,
        path: &str,
        to: &Owner,
        orders: Vec<Errand<UnixStream>>,
        own: Vec<Own>,
    ) -> Result<(), AllocError>
        ensures { self.new.clients.all ≡ self.old.clients.all }
    {
        self.step_orders(path, to, orders)?;
        self.step_own(path, to, own)
    }

    /// Has the controller of a line make the steps of those who wait. Where somebody else has its
    /// file locked, the line stays.
    fn step_there(&mut self, path: String, line: Line) -> Result<(), AllocError>
        ensures { OnOk result (StepsThere (string_bytes path) (queue_of line) self.old self.new) }
    {
        let last = self.saved.take(path.as_str());
        let Line {
            to,
            errands,
            orders,
            own,
        } = line;
        let addressee = to.as_addressee();
        let mut journal = FileJournal::at(self.rt, self.journal);
        let stepped = step_at(
            self.rt,
            self.alloc,
            path.as_str(),
            last,
            addressee,
            errands,
            self.clients.now,
            &mut self.engine,
            &mut journal,
        )?;
        self.clients.tell_missed(&journal);
        match stepped {
            StepsResult::Answered(answered, saved) => {
                hear_all(
                    &mut self.post,
                    self.alloc,
                    answered.as_slice(),
                    self.clients.now,
                );
                self.clients.give_back_all(answered, path.as_str())?;
                self.keep_saved(path.as_str(), &to, saved)?;
                self.step_beside(path.as_str(), &to, orders, own)
            }
            StepsResult::LockedOut(errands, last) => {
                let line = Line {
                    to,
                    errands,
                    orders,
                    own,
                };
                self.wait_on(path, line, last)
            }
        }
    }

    /// The same of those who are there still. Where a folder has no such file any more, they are
    /// told so.
    fn step(&mut self, path: String, line: Line) -> Result<(), AllocError>
        // Proved: A line has its turn: who went is let go; each other client is put back under its
        // own number, with the response of its own errand by the steps of the controller to which
        // the line leads, and with no other; or with 503, where no steps are made or saved; or
        // with 404, where there is no such controller. Where somebody else has the file locked,
        // those who waited as long as they may are put back with 503, and the others stand in
        // their order in the line of this controller, with all that it is to do by itself, and no
        // other line changes. No other client changes.
        ensures { OnOk result (StepsLineTo (string_bytes path) (queue_of line) self.old self.new) }
    {
        let Line {
            to,
            errands,
            orders,
            own,
        } = line;
        let (errands, gone) = gone_and_there(self.alloc, errands, &self.clients.all)?;
        self.clients.pass_over_all(gone, path.as_str())?;
        if errands.is_empty() {
            return self.step_beside(path.as_str(), &to, orders, own);
        }
        let missing = self.is_missing(path.as_str())
            && !self.begins(path.as_str(), &to, errands.as_slice());
        if missing {
            self.clients.miss_all(errands)?;
            return self.step_beside(path.as_str(), &to, orders, own);
        }
        let line = Line {
            to,
            errands,
            orders,
            own,
        };
        self.step_there(path, line)
    }

    /// Gives each line its turn. Those for which no time is left have theirs first in the next
    /// round.
    pub(crate) fn step_all(&mut self) -> Result<(), AllocError> {
        self.is_locked_out = false;
        let until = self.clients.now.saturating_add(STEPS_TIME);
        let lines = mem::replace(&mut self.lines, IndexMap::new(self.alloc));
        for (path, line) in lines {
            let begun = self.moments.now(self.rt, self.clients.now);
            if begun < until {
                self.step(path, line)?;
                let ended = self.moments.now(self.rt, begun);
                self.clients.counts.note_turn(ended.saturating_sub(begun));
            } else {
                self.lines.insert(path, line)?;
            }
        }
        Ok(())
    }
}
