//! Calls of other servers.

ghost use Rattle.std.specs.Prelude.{◌≡◌, ◌<◌, length, string_bytes, IfOk, OnOk};
ghost use Rattle.http_message.specs.Texts.{request_to};
ghost use Rattle.peers_file.specs.Destination.{authority_of};
ghost use Rattle.jdf_server.specs.Calls.{FollowsCall, Says};
ghost use Rattle.jdf_server.specs.Flights.{EndsFlight, EndsIn, FailsFlight, SettlesFlight};
ghost use Rattle.jdf_server.specs.Flights.{WithdrawsFlight};

use crate::server::Server;
use controller::Message;
use http_message::{Received, send_to};
use jmf_message::{decode, refusal_told};
use keepers::Locks;
use mio::net::TcpStream;
use mio::{Interest, Token};
use peers::{Call, CallLimits, CallTurn};
use peers_file::Destination;
use server_post::{CallInFlight, Own, Parcel, Post, Task};
use std::alloc::{AllocError, Global};
use std::io::{self, Write};
use std::mem;
use std::net::{Net, SocketAddr};
use std::time::Clock;
use streams::Counted;

/// How many milliseconds a call may take.
const CALL_TIME: u64 = 30_000;

/// How many bytes an answer has at most.
const ANSWER_BYTES: u32 = 1_048_576;

/// The token of the first call; that of another is so much more than its number. Clients have lower
/// ones.
pub(crate) const CALLS: usize = 4_294_967_296;

/// The status of a message that was taken.
const DONE: u16 = 200;

/// The status of a message that is larger than the other server takes.
const TOO_LARGE: u16 = 413;

/// The request that posts a message to a destination.
fn request_of(alloc: Global, destination: &Destination, text: &[u8]) -> Result<Vec<u8>, AllocError>
    ensures { IfOk result (λ request. request.items
        ≡ request_to (authority_of destination.now) destination.now.path text.now) }
{
    let mut request = Counted::new(Vec::new(alloc));
    match send_to(
        &mut request,
        destination.authority(),
        destination.path(),
        text,
    ) {
        Ok(()) => Ok(request.into_inner()),
        Err(_) => Err(AllocError),
    }
}

/// What came back of a message.
#[derive(Drop)]
enum CallResult {
    /// An answer, which refuses the message for the refusal of this number, if it does.
    Answer(Message, Option<u16>),
    /// The message is too large for the other server.
    TooLarge,
    /// No answer, with this status.
    Status(u16),
    /// Nothing that tells whether it was taken.
    Nothing,
}

/// What a response says.
fn result_of(alloc: Global, response: &Received) -> CallResult
    ensures { Says response.now result }
{
    if response.status == TOO_LARGE {
        return CallResult::TooLarge;
    }
    if response.status != DONE {
        return CallResult::Status(response.status);
    }
    match decode(alloc, response.body.as_slice()) {
        Ok(message) => {
            let refusal = refusal_told(&message);
            CallResult::Answer(message, refusal)
        }
        Err(_) => CallResult::Nothing,
    }
}

/// The address of a destination failed, so that the next of its house is tried next.
fn fail_house(post: &mut Post, line: usize, now: u64)
    ensures { post.new.deliveries ≡ post.old.deliveries }
{
    if let Some((_, destination)) = post.targets.get_index(line) {
        post.houses.fail(destination, now);
    }
}

/// What is in flight to a destination failed, if anything is. Answers whether it is.
fn fail_in(post: &mut Post, line: usize, now: u64) -> bool
    ensures { EndsIn (FailsFlight now) line post.old post.new }
{
    if !post.deliveries.flies(line) {
        return false;
    }
    post.deliveries.fail_flight(line, now);
    fail_house(post, line, now);
    true
}

/// The same, where anything goes out.
fn fail_flight(post: &mut Option<Post>, line: usize, now: u64) -> bool
    ensures { EndsFlight (FailsFlight now) line post.old post.new }
{
    match post.as_mut() {
        Some(post) => fail_in(post, line, now),
        None => false,
    }
}

/// What is in flight to a destination, if anything is, was accepted, or refused for the refusal of
/// this number.
fn settle_in(post: &mut Post, line: usize, refusal: Option<u16>, now: u64)
    ensures { EndsIn (SettlesFlight now refusal) line post.old post.new }
{
    if !post.deliveries.flies(line) {
        return;
    }
    match refusal {
        None => post.deliveries.accept_flight(line, now),
        Some(number) => post.deliveries.refuse_flight(line, number, now),
    }
}

/// The same, where anything goes out.
fn settle_flight(post: &mut Option<Post>, line: usize, refusal: Option<u16>, now: u64)
    ensures { EndsFlight (SettlesFlight now refusal) line post.old post.new }
{
    if let Some(post) = post.as_mut() {
        settle_in(post, line, refusal, now);
    }
}

/// What is in flight to a destination, if anything is, turned out to be out no longer.
fn withdraw_in(post: &mut Post, line: usize)
    ensures { EndsIn WithdrawsFlight line post.old post.new }
{
    if post.deliveries.flies(line) {
        post.deliveries.withdraw_flight(line);
    }
}

/// The same, where anything goes out.
fn withdraw_flight(post: &mut Option<Post>, line: usize)
    ensures { EndsFlight WithdrawsFlight line post.old post.new }
{
    match post {
        Some(post) => withdraw_in(post, line),
        None => {}
    }
}

impl<'a, R: Locks + Net + Clock, F: Write + Drop> Server<'a, R, F> {
    /// Writes the line of something that went out by itself, and what came of it.
    pub(crate) fn tell_parcel(&mut self, path: &str, parcel: &Parcel, what: &str)
        ensures clients { self.new.clients.all ≡ self.old.clients.all }
        ensures rest { (self.new.clients.now ≡ self.old.clients.now)
            × (self.new.post ≡ self.old.post) }
    {
        if let Some(post) = &self.post
            && let Some((url, _)) = post.targets.get_index(parcel.line)
        {
            self.clients
                .tell_parcel(path, url.as_str(), parcel.spawn, what);
        }
    }

    /// Something in flight to a destination failed, and is tried again later.
    pub(crate) fn fail(&mut self, path: &str, parcel: &Parcel)
        ensures clients { self.new.clients.all ≡ self.old.clients.all }
        ensures flight { EndsFlight (FailsFlight self.old.clients.now) parcel.now.line self.old.post
            self.new.post }
    {
        self.fail_as(path, parcel, "not taken");
    }

    /// The same, where the other server answered with this status.
    fn fail_with(&mut self, path: &str, parcel: &Parcel, status: u16)
        ensures clients { self.new.clients.all ≡ self.old.clients.all }
        ensures flight { EndsFlight (FailsFlight self.old.clients.now) parcel.now.line self.old.post
            self.new.post }
    {
        match format!(in self.alloc; "not taken {status}") {
            Ok(what) => self.fail_as(path, parcel, what.as_str()),
            Err(_) => self.fail(path, parcel),
        }
    }

    /// The same, of which this is told.
    fn fail_as(&mut self, path: &str, parcel: &Parcel, what: &str)
        ensures clients { self.new.clients.all ≡ self.old.clients.all }
        // Proved: What is in flight to a destination ends as its call does: it failed, and goes
        // again; or it is taken, or refused for the number that the answer tells; or it was out no
        // longer. Where nothing is in flight, nothing changes.
        // By `flight`; `Server::settle`, `Server::withdraw`: `flight`.
        ensures flight { EndsFlight (FailsFlight self.old.clients.now) parcel.now.line self.old.post
            self.new.post }
    {
        self.tell_parcel(path, parcel, what);
        if fail_flight(&mut self.post, parcel.line, self.clients.now) {
            self.watched.read_again(path);
        }
    }

    /// Something in flight to a destination was accepted, or refused for the refusal of this
    /// number.
    pub(crate) fn settle(&mut self, path: &str, parcel: &Parcel, refusal: Option<u16>)
        ensures clients { self.new.clients.all ≡ self.old.clients.all }
        ensures flight { EndsFlight (SettlesFlight self.old.clients.now refusal) parcel.now.line
            self.old.post self.new.post }
    {
        let what = if refusal.is_none() {
            "taken"
        } else {
            "refused"
        };
        self.tell_parcel(path, parcel, what);
        settle_flight(&mut self.post, parcel.line, refusal, self.clients.now);
    }

    /// Something in flight to a destination turned out to be out no longer.
    pub(crate) fn withdraw(&mut self, line: usize)
        ensures clients { self.new.clients.all ≡ self.old.clients.all }
        ensures flight { EndsFlight WithdrawsFlight line self.old.post self.new.post }
        ensures lines { self.new.lines ≡ self.old.lines }
    {
        withdraw_flight(&mut self.post, line);
    }

    /// Begins a call that carries a message to a destination.
    pub(crate) fn call(
        &mut self,
        path: &str,
        parcel: &Parcel,
        text: &[u8],
    ) -> Result<(), AllocError>
        ensures { self.new.clients.all ≡ self.old.clients.all }
    {
        match self.begin_call(path, parcel, text) {
            Ok(()) => Ok(()),
            Err(error) => {
                let kind = error.kind();
                self.fail(path, parcel);
                if kind == io::ErrorKind::OutOfMemory {
                    return Err(AllocError);
                }
                Ok(())
            }
        }
    }

    /// The address of a destination that is tried next, if its host was found.
    fn address(&self, line: usize) -> Option<SocketAddr> {
        let post = self.post.as_ref()?;
        let (_, destination) = post.targets.get_index(line)?;
        post.houses.address(destination)
    }

    /// The request that carries a message to a destination.
    fn request(&self, line: usize, text: &[u8]) -> io::Result<Vec<u8>> {
        if let Some(post) = &self.post
            && let Some((_, destination)) = post.targets.get_index(line)
        {
            return Ok(request_of(self.alloc, destination, text)?);
        }
        Err(io::ErrorKind::NotFound.into())
    }

    fn begin_call(&mut self, path: &str, parcel: &Parcel, text: &[u8]) -> io::Result<()>
        ensures { self.new.clients.all ≡ self.old.clients.all }
    {
        let Some(address) = self.address(parcel.line) else {
            return Err(io::ErrorKind::NotFound.into());
        };
        let request = self.request(parcel.line, text)?;
        let stream = TcpStream::connect(self.rt, address)?;
        let path = String::from_str(self.alloc, path)?;
        self.add_call(path, parcel, request, stream)
    }

    fn add_call(
        &mut self,
        path: String,
        parcel: &Parcel,
        request: Vec<u8>,
        mut stream: TcpStream,
    ) -> io::Result<()>
        ensures { self.new.clients.all ≡ self.old.clients.all }
    {
        let Some(post) = &mut self.post else {
            return Ok(());
        };
        let token = Token(post.calls.vacant_key().saturating_add(CALLS));
        let interest = Interest::READABLE | Interest::WRITABLE;
        self.poll.registry().register(&mut stream, token, interest)?;
        let limits = CallLimits {
            time: CALL_TIME,
            body: ANSWER_BYTES,
        };
        let call = Call::new(self.alloc, request, limits, stream, self.clients.now);
        post.calls.insert(CallInFlight {
            parcel: *parcel,
            path,
            call: Some(call),
        })?;
        Ok(())
    }

    /// Notes that the stream of a call changed.
    pub(crate) fn note_call(&mut self, key: usize) -> Result<(), AllocError> {
        if let Some(post) = &mut self.post {
            post.ready.push(key)?;
        }
        Ok(())
    }

    /// Gives each call that may have something its turn.
    pub(crate) fn advance_calls(&mut self, buffer: &mut [u8]) -> Result<(), AllocError>
        requires { 0 < length buffer.old }
    {
        let ready = match &mut self.post {
            Some(post) => mem::replace(&mut post.ready, Vec::new(self.alloc)),
            None => return Ok(()),
        };
        for key in ready {
            self.advance_call(key, buffer)?;
        }
        Ok(())
    }

    /// A call and what it carries, taken out of its place.
    fn take_call(&mut self, key: usize) -> Option<Call<TcpStream>> {
        let post = self.post.as_mut()?;
        let flying = post.calls.get_mut(key)?;
        flying.call.take()
    }

    fn advance_call(&mut self, key: usize, buffer: &mut [u8]) -> Result<(), AllocError>
        requires { 0 < length buffer.old }
    {
        let Some(call) = self.take_call(key) else {
            return Ok(());
        };
        match call.advance(self.alloc, buffer, self.clients.now) {
            CallTurn::Wait(call) => {
                self.put_call_back(key, call);
                Ok(())
            }
            CallTurn::Again(call) => {
                self.put_call_back(key, call);
                self.note_call(key)
            }
            CallTurn::Came(response) => self.end_call(key, Some(response)),
            CallTurn::Failed(_) => self.end_call(key, None),
        }
    }

    fn put_call_back(&mut self, key: usize, call: Call<TcpStream>) {
        if let Some(post) = &mut self.post
            && let Some(flying) = post.calls.get_mut(key)
        {
            flying.call = Some(call);
        }
    }

    /// Ends a call, whose response came, or didn't.
    fn end_call(&mut self, key: usize, response: Option<Received>) -> Result<(), AllocError> {
        let came = match &response {
            Some(response) => result_of(self.alloc, response),
            None => CallResult::Nothing,
        };
        drop(response);
        match self.remove_call(key) {
            Some((path, parcel)) => self.follow_call(path, parcel, came),
            None => {
                drop(came);
                Ok(())
            }
        }
    }

    /// Takes a call out, and tells what it carried.
    fn remove_call(&mut self, key: usize) -> Option<(String, Parcel)> {
        let post = self.post.as_mut()?;
        let CallInFlight { parcel, path, call } = post.calls.try_remove(key)?;
        drop(call);
        Some((path, parcel))
    }

    /// Does behind a call what is to be done.
    fn follow_call(
        &mut self,
        path: String,
        parcel: Parcel,
        came: CallResult,
    ) -> Result<(), AllocError>
        // Proved: What an answer says its controller is to take, with the number by which that
        // refuses what is in flight; a status of 413 refuses that as too large; and with another
        // status, and where nothing tells whether it was taken, it failed.
        // By `result_of`.
        ensures { OnOk result (FollowsCall (string_bytes path) parcel came self.old self.new) }
    {
        match came {
            CallResult::Answer(message, refusal) => {
                let task = Task::Take(message, refusal);
                let until = self.own_until();
                let own = Own {
                    parcel,
                    task,
                    until,
                };
                self.join_own(path, own)
            }
            CallResult::TooLarge => {
                self.settle(path.as_str(), &parcel, Some(TOO_LARGE));
                Ok(())
            }
            CallResult::Status(status) => {
                self.fail_with(path.as_str(), &parcel, status);
                Ok(())
            }
            CallResult::Nothing => {
                self.fail(path.as_str(), &parcel);
                Ok(())
            }
        }
    }

    /// Ends the calls whose time is up.
    pub(crate) fn close_late_calls(&mut self) -> Result<(), AllocError> {
        let mut late = Vec::new(self.alloc);
        if let Some(post) = &self.post {
            for (key, flying) in post.calls.iter() {
                if let Some(call) = &flying.call
                    && call.deadline() <= self.clients.now
                {
                    late.push(key)?;
                }
            }
        }
        for key in late {
            self.end_call(key, None)?;
        }
        Ok(())
    }
}
