//! The steps of those who wait for one controller, under the lock of its file.

ghost use Rattle.std.specs.Prelude.{◌≡◌, ℕ, length, false, true, IfOk, MatchResult};
ghost use Rattle.journal.specs.Journal.{IsLeft};
ghost use Rattle.keepers.specs.SystemFile.{file_bytes, is_honest, keep_in_new_file, place};
ghost use Rattle.rounds.specs.Line.{HasRoom};
ghost use Rattle.stored_state.specs.Held.{HoldsSame};
ghost use Rattle.server_steps.specs.Begun.{Begins};
ghost use Rattle.server_steps.specs.Looks.{HoldsSaved, IsSeen, IsSeenAt};
ghost use Rattle.server_steps.specs.Steps.{IsStepped, StepsKept};
ghost use Rattle.server_steps.specs.Journaled.{KeepsJournal, KeepsJournalIn, KeepsOwnJournal};
ghost use Rattle.server_steps.specs.Journaled.{OwnStepsAt, OwnStepsFound, OwnStepsKept};

use crate::journaling::{
    calls_of_comings, calls_of_errands, journal_clients_steps, journal_own_steps,
};
use journal::{Journal, seconds};
use keepers::{FileKeep, Keep, KeepFault, Locks};
use mio::net::TcpStream;
use rounds::{AnsweredClient, Errand, Room, RoundKeep, answer_all, refuse_errands};
use std::alloc::{AllocError, Global};
use std::fs;
use std::io::ErrorKind;
use std::rt::Files;
use std::time::Clock;
use stored_state::{Addressee, Coming, Kept, SavedState, Snapshot, TakenBytes, open_any};
use streams::Refused;
use ticket_items::{Duplicate, Id, Refusal};
use worker_core::Worker;

/// What came of those who wait for a controller.
#[derive(Drop)]
pub enum StepsResult {
    /// Each has the response; and the controller as it was saved, if it was.
    Answered(Vec<AnsweredClient<TcpStream>>, Option<SavedState>),
    /// Somebody else has its file locked, and nothing was done.
    LockedOut(Vec<Errand<TcpStream>>, Option<SavedState>),
}

/// Whether the system says that nothing is there under a path. No contract says more: others may
/// make or remove it at any time.
pub(crate) fn is_missing<R: Files>(rt: &R, path: &str) -> bool {
    match fs::symlink_metadata(rt, path) {
        Ok(_) => false,
        Err(error) => error.kind() == ErrorKind::NotFound,
    }
}

/// What became of those who wait for the controller that a keeper holds, if that is one that is
/// addressed, by its steps at the time of the clock; each is refused where that tells no time since
/// 1970. The lines of the steps are appended to the journal behind the save, and then the keeper is
/// let go.
pub(crate) fn step_kept<R: Clock, K: RoundKeep, J: Journal, S: Drop>(
    rt: &R,
    alloc: Global,
    mut keep: K,
    last: Option<SavedState>,
    to: Addressee<'_>,
    errands: Vec<Errand<S>>,
    room: Room<S, AnsweredClient<S>>,
    now: u64,
    journal: &mut J,
) -> (Vec<AnsweredClient<S>>, Option<SavedState>)
    requires { HasRoom (length errands.items) room }
    ensures steps { StepsKept K.is_honest K.held K.place K.count K.load_fails K.save_fails keep
        to.entry now errands.items result.0.items result.1 }
    ensures journaled { J.is_honest journal.old ≡ true → KeepsJournal K.is_honest K.held K.place
        K.count K.load_fails K.save_fails J.held J.is_missed keep to.entry now errands.items
        result.0.items result.1 journal.old journal.new }
{
    match seconds(rt) {
        Some(at) => {
            let calls = calls_of_errands(alloc, journal, errands.as_slice());
            let (answered, saved) = answer_all(alloc, &mut keep, last, to, errands, room, at, now);
            journal_clients_steps(alloc, journal, calls, answered.as_slice(), &saved, at);
            (answered, saved)
        }
        None => {
            drop(last);
            (
                refuse_errands(alloc, errands, room, Refused::ReadFailed, now),
                None,
            )
        }
    }
}

/// The steps at the controller in the file of this path, if that is one that is addressed, which
/// has its lock meanwhile.
pub(crate) fn step_in_file<R: Locks + Clock, J: Journal>(
    rt: &R,
    alloc: Global,
    path: &str,
    last: Option<SavedState>,
    to: Addressee<'_>,
    errands: Vec<Errand<TcpStream>>,
    now: u64,
    journal: &mut J,
) -> Result<StepsResult, AllocError>
    // Proved: Those who wait for the controller in a file are answered as `answer_all` says, by
    // the keeper in the file of this path, if that holds one that is addressed, at some time; or
    // each is refused with 503; or somebody else has the file locked, and they wait on.
    // By `steps`, `journaled`.
    ensures steps { IfOk result (IsStepped path.now to.entry now errands.items last) }
    // Proved: A journal that is honest gets, behind the save, a line of each step of those who
    // wait that was accepted and changed the controller, in turn, at the time of the step and with
    // who sent the message; or it misses them, which is told; where nothing was saved it is left
    // as it was. So it does of what goes out by itself, where the line tells `serve`.
    // By `journaled`; `step_own_kept`: `journaled`.
    ensures journaled { J.is_honest journal.old ≡ true → MatchResult result
        (KeepsJournalIn J.held J.is_missed path.now to.entry now errands.items journal.old
        journal.new) (λ _. IsLeft J.held J.is_missed journal.old journal.new) }
{
    let room = Room::new(alloc, errands.len())?;
    match FileKeep::try_lock(rt, alloc, path) {
        Ok(Some(keep)) => {
            let (answered, saved) = step_kept(
                rt, alloc, keep, last, to, errands, room, now, journal,
            );
            Ok(StepsResult::Answered(answered, saved))
        }
        Ok(None) => Ok(StepsResult::LockedOut(errands, last)),
        Err(_) => {
            let refused = Refused::LoadFailed;
            Ok(StepsResult::Answered(refuse_errands(alloc, errands, room, refused, now), None))
        }
    }
}

/// Begins a worker of this name for this master. Answers whether the keeper has it.
pub(crate) fn begin_kept<K: Keep>(alloc: Global, keep: K, name: &Id, master: &Id) -> bool
    ensures { result ≡ true → Begins K.is_honest K.held K.place keep name.now master.now }
{
    let Ok(name) = name.copy(alloc) else {
        drop(keep);
        return false;
    };
    let Ok(master) = master.copy(alloc) else {
        drop(keep);
        drop(name);
        return false;
    };
    match Worker::new(alloc, name, master) {
        Ok(worker) => Kept::create(alloc, worker, keep).is_ok(),
        Err(_) => {
            drop(keep);
            false
        }
    }
}

/// Begins a worker of this name for this master in the file of this path, which isn't there yet.
/// Answers whether it is kept there.
pub(crate) fn begin_in_file<R: Locks>(
    rt: &R,
    alloc: Global,
    path: &str,
    name: &Id,
    master: &Id,
) -> bool
    ensures { result ≡ true → Begins is_honest file_bytes place (keep_in_new_file path.now) name.now
        master.now }
{
    begin_kept(alloc, FileKeep::create_new(rt, alloc, path), name, master)
}

/// What came of something that no client waits for.
#[derive(Drop)]
pub enum OwnStepResult {
    /// What each gave out; and the controller as it was saved, if it was.
    Stepped(Vec<Result<TakenBytes, Refusal>>, Option<SavedState>),
    /// Somebody else has the file locked, and nothing was done.
    LockedOut(Vec<Coming>, Option<SavedState>),
    /// Nothing was done: the file can't be loaded or saved.
    Failed,
}

/// The steps of the controller that a keeper holds, if that is one that is addressed, at a time, by
/// what comes that no client waits for. Their lines are appended to the journal behind the save,
/// and then the keeper is let go.
pub(crate) fn step_own_kept<K: RoundKeep, J: Journal>(
    alloc: Global,
    mut keep: K,
    last: Option<SavedState>,
    to: Addressee<'_>,
    all: Vec<Coming>,
    at: u64,
    journal: &mut J,
) -> OwnStepResult
    ensures steps { OwnStepsKept K.is_honest K.held keep to.entry at all.items result }
    ensures journaled { J.is_honest journal.old ≡ true
        → KeepsOwnJournal J.held J.is_missed at all.items journal.old journal.new result }
{
    let calls = calls_of_comings(alloc, journal, all.as_slice());
    match keep.take_round(alloc, last, to, all, at) {
        Ok((given, saved)) => {
            journal_own_steps(alloc, journal, calls, given.as_slice(), &saved, at);
            OwnStepResult::Stepped(given, saved)
        }
        Err(_) => OwnStepResult::Failed,
    }
}

/// The same, where the keeper was found so: nothing is done where somebody else has it locked, or
/// where it can't be locked.
fn step_own_found<K: RoundKeep, J: Journal>(
    alloc: Global,
    found: Result<Option<K>, KeepFault>,
    last: Option<SavedState>,
    to: Addressee<'_>,
    all: Vec<Coming>,
    at: u64,
    journal: &mut J,
) -> OwnStepResult
    ensures steps { OwnStepsFound K.is_honest K.held found to.entry at all.items last result }
    ensures journaled { J.is_honest journal.old ≡ true
        → KeepsOwnJournal J.held J.is_missed at all.items journal.old journal.new result }
{
    match found {
        Ok(Some(keep)) => step_own_kept(alloc, keep, last, to, all, at, journal),
        Ok(None) => OwnStepResult::LockedOut(all, last),
        Err(_) => OwnStepResult::Failed,
    }
}

/// The steps at the controller in the file of this path, if that is one that is addressed, by what
/// comes that no client waits for, at the time of the clock.
pub(crate) fn step_own_in_file<R: Locks + Clock, J: Journal>(
    rt: &R,
    alloc: Global,
    path: &str,
    last: Option<SavedState>,
    to: Addressee<'_>,
    all: Vec<Coming>,
    journal: &mut J,
) -> OwnStepResult
    ensures { (at : ℕ) × OwnStepsAt R false path.now to.entry at all.items last result
        × (J.is_honest journal.old ≡ true
        → KeepsOwnJournal J.held J.is_missed at all.items journal.old journal.new result) }
{
    let Some(at) = seconds(rt) else {
        return OwnStepResult::Failed;
    };
    let found = FileKeep::try_lock(rt, alloc, path);
    step_own_found(alloc, found, last, to, all, at, journal)
}

/// What is found in a file, or under a key.
#[derive(Drop)]
pub enum Look {
    /// The controller that is addressed.
    Found(Snapshot),
    /// It as it was saved last.
    Same,
    /// Nothing that can be loaded, or another controller.
    Nothing,
    /// Somebody else has it locked.
    LockedOut,
    /// The engine that keeps it doesn't tell.
    Unanswered,
}

/// Whether a keeper holds the text that was saved last.
fn holds_saved<K: Keep>(keep: &mut K, last: &Option<SavedState>) -> bool
    ensures saved { result ≡ true → HoldsSaved K.is_honest K.held keep.old last.now }
    ensures held { HoldsSame K.is_honest K.held keep.old keep.new }
    ensures honest { K.is_honest keep.new ≡ K.is_honest keep.old }
{
    match (last, keep.load()) {
        (Some(saved), Ok(bytes)) => saved.text() == bytes.as_slice(),
        _ => false,
    }
}

/// What the keeper holds that was found so, if that is the controller that is addressed.
pub(crate) fn look_at<K: Keep>(
    alloc: Global,
    found: Result<Option<K>, KeepFault>,
    to: Addressee<'_>,
    last: &Option<SavedState>,
) -> Look
    ensures { IsSeen K.is_honest K.held found to.entry last.now result }
{
    match found {
        Ok(Some(mut keep)) => {
            if last.is_some() && holds_saved(&mut keep, last) {
                return Look::Same;
            }
            match Snapshot::of(alloc, &mut keep) {
                Ok(found) if to.is(found.controller()) => Look::Found(found),
                _ => Look::Nothing,
            }
        }
        Ok(None) => Look::LockedOut,
        Err(_) => Look::Nothing,
    }
}

/// The controller in the file of this path, if that is one that is addressed.
pub(crate) fn look_in_file<R: Locks>(
    rt: &R,
    alloc: Global,
    path: &str,
    to: Addressee<'_>,
    last: &Option<SavedState>,
) -> Look
    ensures { IsSeenAt false to.entry last.now result }
{
    look_at(alloc, FileKeep::try_lock(rt, alloc, path), to, last)
}

/// Whether a controller can be loaded of the keeper that was found so. Refuses as `check_file`.
pub(crate) fn check_found<K: Keep>(
    alloc: Global,
    found: Result<K, KeepFault>,
) -> Result<(), Refused> {
    match found {
        Ok(keep) => open_any(alloc, keep)?,
        Err(_) => return Err(Refused::LoadFailed),
    };
    Ok(())
}

/// Whether a controller can be loaded of a file. Refuses `LoadFailed`, what the file holds is
/// refused for, and `Memory`.
pub(crate) fn check_file<R: Locks>(rt: &R, alloc: Global, file: &str) -> Result<(), Refused> {
    check_found(alloc, FileKeep::lock(rt, alloc, file))
}
