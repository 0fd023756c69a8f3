//! What goes out by itself: which parts are out, and whose turn it is.

ghost use Rattle.std.specs.Prelude.{◌≡◌, true, false, is_ok, map, string_bytes, IfOk, OnOk};
ghost use Rattle.std.specs.Option.{option_map};
ghost use Rattle.std.specs.Result.{result_ok};
ghost use Rattle.jdf_server.specs.Flights.{EndsFlight};
ghost use Rattle.jdf_server.specs.Lines.{ChangesLine, with_own};
ghost use Rattle.jdf_server.specs.Posting as posting;
ghost use Rattle.jdf_server.specs.Posting.{AnswersFlight, IsDispatched, IsUnsent, JoinsOwn};
ghost use Rattle.jdf_server.specs.Posting.{coming_in, is_taken, mark_of, owner_at, path_at};

use crate::server::Server;
use deliveries::Flight;
use indexmap::IndexMap;
use journal::FileJournal;
use keepers::Locks;
use server_post::{Line, Own, Parcel, Task, send_own};
use server_steps::{ControllerView, ControllerViews, OwnStepResult, step_own_at};
use shop_folder::Owner;
use std::alloc::{AllocError, Global};
use std::io::Write;
use std::net::Net;
use std::time::Clock;
use stored_state::{AnyController, Coming, SavedState, TakenBytes};
use ticket_items::Refusal;

/// How much goes out in one round at most.
const MAX_FLIGHTS: usize = 64;

/// The controller in the file of this path, as it is known.
fn owner_in(alloc: Global, watched: &ControllerViews, path: &str) -> Result<Owner, AllocError>
    ensures { IfOk result (λ to. to ≡ owner_at watched.now path.now) }
{
    match watched.controllers.get(path) {
        Some(seat) => seat.owner.copy(alloc),
        None => Ok(Owner::Any),
    }
}

/// Puts something to be done in the line of the controller in the file of this path.
fn join_own(
    alloc: Global,
    lines: &mut IndexMap<String, Line>,
    watched: &ControllerViews,
    path: String,
    own: Own,
) -> Result<(), AllocError>
    ensures { OnOk result (ChangesLine (string_bytes path)
        (owner_at watched.now (string_bytes path)) (with_own own) lines.old lines.new) }
{
    if let Some(line) = lines.get_mut(path.as_str()) {
        line.own.push(own)?;
        return Ok(());
    }
    let to = owner_in(alloc, watched, path.as_str())?;
    let mut line = Line::new(alloc, to);
    line.own.push(own)?;
    lines.insert(path, line)?;
    Ok(())
}

impl<'a, R: Locks + Net + Clock, F: Write + Drop> Server<'a, R, F> {
    /// Until which moment what is to be done now waits for a file that is locked.
    pub(crate) fn own_until(&self) -> u64 {
        self.clients
            .now
            .saturating_add(self.clients.listener.limits.step)
    }

    /// Puts something to be done in the line of a controller.
    pub(crate) fn join_own(&mut self, path: String, own: Own) -> Result<(), AllocError>
        ensures clients { self.new.clients.all ≡ self.old.clients.all }
        ensures joins { OnOk result (JoinsOwn (string_bytes path) own self.old self.new) }
    {
        join_own(self.alloc, &mut self.lines, &self.watched, path, own)
    }

    /// What is to be sent now, if anything is.
    fn next_flight(&mut self) -> Option<Flight> {
        match &mut self.post {
            Some(post) => post.deliveries.next(self.clients.now),
            None => None,
        }
    }

    /// The path of the file of a controller.
    fn path_of(&self, number: usize) -> Result<Option<String>, AllocError>
        ensures { IfOk result (λ path. option_map (λ p. string_bytes p) path
            ≡ path_at self.now.watched number) }
    {
        match self.watched.controllers.get_index(number) {
            Some((path, _)) => Ok(Some(path.clone()?)),
            None => Ok(None),
        }
    }

    /// Has a controller send what is in flight, if it is there.
    fn dispatch_one(&mut self, flight: &Flight) -> Result<(), AllocError>
        // Proved: What is in flight is to be sent by the controller that has it out, in whose line
        // that stands last; where that isn't known it is withdrawn.
        ensures { OnOk result (IsDispatched flight.now.line
            (path_at self.old.watched flight.now.controller) self.old self.new) }
    {
        match self.path_of(flight.controller)? {
            Some(path) => {
                let own = send_own(self.alloc, flight, self.own_until())?;
                self.join_own(path, own)
            }
            None => {
                self.withdraw(flight.line);
                Ok(())
            }
        }
    }

    /// Has each controller send what is to be sent from it now.
    pub(crate) fn dispatch(&mut self) -> Result<(), AllocError> {
        for _ in 0..MAX_FLIGHTS {
            let Some(flight) = self.next_flight() else {
                return Ok(());
            };
            self.dispatch_one(&flight)?;
        }
        Ok(())
    }

    /// Does behind a step for something that goes out what is to be done. An answer that its
    /// controller refuses tells nothing.
    fn follow_own(
        &mut self,
        path: &str,
        mark: &Mark,
        came: Result<TakenBytes, Refusal>,
    ) -> Result<(), AllocError>
        ensures clients { self.new.clients.all ≡ self.old.clients.all }
        // Proved: An answer that its controller takes settles what is in flight, with the refusal
        // that it tells of; where it doesn't, that failed. What a controller was to send failed
        // where it made no step, and is withdrawn where that gave nothing out.
        // By `answer`, `unsent`.
        ensures answer { mark.now.is_answer ≡ true → EndsFlight (AnswersFlight self.old.clients.now
            mark.now.refusal (is_taken came)) mark.now.parcel.line self.old.post self.new.post }
        ensures unsent { mark.now.is_answer ≡ false → IsUnsent self.old.clients.now came
            mark.now.parcel.line self.old.post self.new.post }
    {
        let Some((is_taken, sent)) = output_of(came) else {
            self.fail(path, &mark.parcel);
            return Ok(());
        };
        if mark.is_answer {
            drop(sent);
            if is_taken {
                self.settle(path, &mark.parcel, mark.refusal);
            } else {
                self.fail(path, &mark.parcel);
            }
            return Ok(());
        }
        match sent {
            Some(text) => self.call(path, &mark.parcel, text.as_slice()),
            None => {
                self.withdraw(mark.parcel.line);
                Ok(())
            }
        }
    }

    /// Does behind these steps what is to be done.
    fn follow_all(
        &mut self,
        path: &str,
        marks: &[Mark],
        given: Vec<Result<TakenBytes, Refusal>>,
    ) -> Result<(), AllocError>
        ensures { self.new.clients.all ≡ self.old.clients.all }
    {
        for (mark, came) in marks.iter().zip(given) {
            self.follow_own(path, mark, came)?;
        }
        Ok(())
    }

    /// This can't be done now, since the file can't be had: it is seen again later, and holds up
    /// nothing else meanwhile.
    fn put_off(&mut self, path: &str, mark: &Mark)
        ensures { self.new.clients.all ≡ self.old.clients.all }
    {
        if mark.is_answer {
            self.tell_parcel(path, &mark.parcel, "not taken");
        }
        self.withdraw(mark.parcel.line);
        self.watched.read_again(path);
    }

    /// The same of all of these.
    fn put_off_all(&mut self, path: &str, marks: &[Mark])
        ensures { self.new.clients.all ≡ self.old.clients.all }
    {
        for mark in marks {
            self.put_off(path, mark);
        }
    }

    /// Has this wait on for a file that somebody else has locked, if it may.
    fn keep_one(&mut self, path: &str, mark: &Mark, coming: Coming) -> Result<(), AllocError>
        ensures { self.new.clients.all ≡ self.old.clients.all }
    {
        match own_of(mark, coming) {
            Some(own) if mark.until > self.clients.now => {
                self.join_own(String::from_str(self.alloc, path)?, own)
            }
            own => {
                drop(own);
                self.put_off(path, mark);
                Ok(())
            }
        }
    }

    /// The same of all of these.
    fn keep_own(
        &mut self,
        path: &str,
        marks: &[Mark],
        comings: Vec<Coming>,
    ) -> Result<(), AllocError>
        ensures { self.new.clients.all ≡ self.old.clients.all }
    {
        for (mark, coming) in marks.iter().zip(comings) {
            self.keep_one(path, mark, coming)?;
        }
        Ok(())
    }

    /// Has a controller do what is to be done for what goes out from it.
    pub(crate) fn step_own(
        &mut self,
        path: &str,
        to: &Owner,
        own: Vec<Own>,
    ) -> Result<(), AllocError>
        // Proved: What goes out by itself changes no client.
        ensures { self.new.clients.all ≡ self.old.clients.all }
    {
        if own.is_empty() {
            return Ok(());
        }
        let (marks, comings) = all_parted(self.alloc, own)?;
        self.step_marked(path, to, marks.as_slice(), comings)
    }

    fn step_marked(
        &mut self,
        path: &str,
        to: &Owner,
        marks: &[Mark],
        comings: Vec<Coming>,
    ) -> Result<(), AllocError>
        ensures { self.new.clients.all ≡ self.old.clients.all }
    {
        let last = self.saved.take(path);
        let mut journal = FileJournal::at(self.rt, self.journal);
        let stepped = step_own_at(
            self.rt,
            self.alloc,
            path,
            last,
            to.as_addressee(),
            comings,
            &mut self.engine,
            &mut journal,
        );
        self.clients.tell_missed(&journal);
        match stepped {
            OwnStepResult::Stepped(given, saved) => {
                let kept = self.keep_saved(path, to, saved);
                self.follow_all(path, marks, given)?;
                kept
            }
            OwnStepResult::LockedOut(comings, last) => {
                self.keep_last(path, last)?;
                self.is_locked_out = true;
                self.keep_own(path, marks, comings)
            }
            OwnStepResult::Failed => {
                self.put_off_all(path, marks);
                Ok(())
            }
        }
    }

    /// Sees what a controller has out now, and what a page tells of it.
    pub(crate) fn see_controller(
        &mut self,
        number: usize,
        controller: &AnyController,
    ) -> Result<(), AllocError>
        ensures { self.new.clients.all ≡ self.old.clients.all }
    {
        if self.is_shown() {
            let shown = ControllerView::of(self.alloc, controller)?;
            self.watched.show(number, Some(shown));
        }
        match &mut self.post {
            Some(post) => post.see(self.alloc, number, controller, self.clients.now),
            None => Ok(()),
        }
    }

    /// Sees what a controller has out now, as it was saved.
    fn see_saved(&mut self, path: &str, to: &Owner, saved: &SavedState) -> Result<(), AllocError>
        ensures { self.new.clients.all ≡ self.old.clients.all }
    {
        if !self.watches() {
            return Ok(());
        }
        let number = self.watched.seat_of(self.alloc, path, to)?;
        self.see_controller(number, saved.controller())
    }

    /// Keeps a controller as it was saved, and sees what it has out now.
    pub(crate) fn keep_saved(
        &mut self,
        path: &str,
        to: &Owner,
        saved: Option<SavedState>,
    ) -> Result<(), AllocError>
        ensures { self.new.clients.all ≡ self.old.clients.all }
    {
        let Some(saved) = saved else {
            return Ok(());
        };
        self.clients.counts.note_save();
        let seen = self.see_saved(path, to, &saved);
        let path = String::from_str(self.alloc, path)?;
        self.saved.keep(path, saved)?;
        seen
    }
}

/// What is kept of something to be done while its step is made.
#[derive(Clone, Copy)]
struct Mark {
    parcel: Parcel,
    is_answer: bool,
    refusal: Option<u16>,
    until: u64,
}

/// Whether a step was accepted, and the text that goes out; none where no step was made.
fn output_of(came: Result<TakenBytes, Refusal>) -> Option<(bool, Option<Vec<u8>>)>
    ensures { result ≡ option_map (λ taken. (is_ok taken.reply, taken.answer)) (result_ok came) }
{
    match came {
        Ok(taken) => {
            let TakenBytes {
                sender,
                reply,
                answer,
            } = taken;
            drop(sender);
            Some((reply.is_ok(), answer))
        }
        Err(_) => None,
    }
}

/// The step of which a controller is told this, where it is one.
fn task_of(refusal: Option<u16>, coming: Coming) -> Option<Task>
    ensures { result ≡ posting.task_of refusal coming }
{
    match coming {
        Coming::Order(text) => Some(Task::Send(text)),
        Coming::Message(message) => Some(Task::Take(message, refusal)),
        Coming::Neither(_) => None,
    }
}

/// What is to be done, of what was kept of it and what its controller is told.
fn own_of(mark: &Mark, coming: Coming) -> Option<Own>
    ensures { result ≡ option_map (λ task. record {
      parcel = mark.now.parcel;
      task = task;
      until = mark.now.until;
    }) (posting.task_of mark.now.refusal coming) }
{
    let task = task_of(mark.refusal, coming)?;
    Some(Own {
        parcel: mark.parcel,
        task,
        until: mark.until,
    })
}

fn parts_of_own(own: Own) -> (Mark, Coming)
    ensures { result ≡ (mark_of own, coming_in own.task) }
{
    let Own {
        parcel,
        task,
        until,
    } = own;
    match task {
        Task::Send(text) => (
            Mark {
                parcel,
                is_answer: false,
                refusal: None,
                until,
            },
            Coming::Order(text),
        ),
        Task::Take(message, refusal) => (
            Mark {
                parcel,
                is_answer: true,
                refusal,
                until,
            },
            Coming::Message(message),
        ),
    }
}

fn all_parted(alloc: Global, own: Vec<Own>) -> Result<(Vec<Mark>, Vec<Coming>), AllocError>
    ensures marks { IfOk result (λ parted. parted.0.items ≡ map mark_of own.items) }
    ensures comings { IfOk result (λ parted. parted.1.items
        ≡ map (λ one. coming_in one.task) own.items) }
{
    let mut marks = Vec::with_capacity(alloc, own.len())?;
    let mut comings = Vec::with_capacity(alloc, own.len())?;
    for one in own {
        let (mark, coming) = parts_of_own(one);
        marks.push(mark)?;
        comings.push(coming)?;
    }
    Ok((marks, comings))
}
