//! The steps of the controller at a path: in its file, or under its key in etcd.

ghost use Rattle.std.specs.Prelude.{◌≡◌, ℕ, true, Err, None, IfOk, IfSome, MatchResult};
ghost use Rattle.etcd_place.specs.Place.{etcd_place_in, is_etcd as is_etcd_text};
ghost use Rattle.journal.specs.Journal.{IsLeft};
ghost use Rattle.server_steps.specs.InEtcd.{IsKeepAt};
ghost use Rattle.server_steps.specs.Journaled.{KeepsJournalAt, KeepsOwnJournal, OwnStepsAt};
ghost use Rattle.server_steps.specs.Looks.{IsSeenAt};
ghost use Rattle.server_steps.specs.Steps.{IsSteppedAt};
ghost use Rattle.streams.specs.declared.refused.Refused.TheVariants.{LoadFailed};

use crate::engine::{Engine, are_failed};
use crate::stepping::{
    Look, OwnStepResult, StepsResult, check_file, check_found, look_at, look_in_file, step_in_file,
    step_kept, step_own_in_file, step_own_kept,
};
use cells::CellKeep;
use etcd_cell::{EtcdCell, SocketConnector};
use etcd_place::{EtcdPlace, is_etcd};
use journal::{Journal, seconds};
use keepers::{Keep, Locks, MemoryKeep};
use mio::net::TcpStream;
use rounds::{Errand, Room, refuse_errands};
use std::alloc::{AllocError, Global};
use std::net::Net;
use std::time::{Clock, Instant};
use stored_state::{Addressee, Coming, SavedState};
use streams::Refused;

/// A keeper over the value under a key of etcd.
pub(crate) type EtcdKeep<'a, R> = CellKeep<EtcdCell<SocketConnector<'a, R>>>;

/// The one of the place in etcd that a path is, if it is one and the engine isn't left alone.
pub(crate) fn keep_for<'a, R: Net + Clock>(
    rt: &'a R,
    alloc: Global,
    path: &str,
    engine: &Engine,
) -> Result<Option<EtcdKeep<'a, R>>, AllocError>
    // Proved: A keeper for a place in etcd asks the gateway that the text names, for the key that
    // it names.
    ensures { IfOk result (λ found. IfSome found (IsKeepAt path.now)) }
{
    let Some(place) = EtcdPlace::of(path) else {
        return Ok(None);
    };
    if engine.is_left(rt) {
        return Ok(None);
    }
    let cell = place.cell(rt, alloc, Engine::limit())?;
    Ok(Some(CellKeep::over(alloc, cell)))
}

/// The steps at the controller under the key that a path names, if that is one that is addressed.
/// Each client is refused where the engine is left alone.
fn step_in_etcd<R: Net + Clock, J: Journal>(
    rt: &R,
    alloc: Global,
    path: &str,
    last: Option<SavedState>,
    to: Addressee<'_>,
    errands: Vec<Errand<TcpStream>>,
    now: u64,
    engine: &mut Engine,
    journal: &mut J,
) -> Result<StepsResult, AllocError>
    ensures steps { IfOk result (IsSteppedAt R true path.now to.entry now errands.items last) }
    ensures journaled { J.is_honest journal.old ≡ true → MatchResult result
        (KeepsJournalAt R true J.held J.is_missed path.now to.entry now errands.items journal.old
        journal.new) (λ _. IsLeft J.held J.is_missed journal.old journal.new) }
{
    let room = Room::new(alloc, errands.len())?;
    let found = keep_for(rt, alloc, path, engine)?;
    let Some(keep) = found else {
        drop(last);
        let answered = refuse_errands(alloc, errands, room, Refused::LoadFailed, now);
        return Ok(StepsResult::Answered(answered, None));
    };
    let asked = Instant::now(rt).ok();
    let (answered, saved) = step_kept(rt, alloc, keep, last, to, errands, room, now, journal);
    engine.note(rt, asked, are_failed(answered.as_slice()));
    Ok(StepsResult::Answered(answered, saved))
}

/// The steps at the controller at a path, in its file or under its key, if that is one that is
/// addressed.
pub fn step_at<R: Locks + Net + Clock, J: Journal>(
    rt: &R,
    alloc: Global,
    path: &str,
    last: Option<SavedState>,
    to: Addressee<'_>,
    errands: Vec<Errand<TcpStream>>,
    now: u64,
    engine: &mut Engine,
    journal: &mut J,
) -> Result<StepsResult, AllocError>
    // Proved: Those who wait for the controller at a path are answered as `answer_all` says, by
    // the keeper in the file of this path, or, where the path is to be a place in etcd, by one of
    // the key that it names, and never by a file; or each is refused with 503.
    // By `steps`, `journaled`; `keep_for`.
    ensures steps { IfOk result (IsSteppedAt R (is_etcd_text path.now) path.now to.entry now
        errands.items last) }
    ensures journaled { J.is_honest journal.old ≡ true → MatchResult result
        (KeepsJournalAt R (is_etcd_text path.now) J.held J.is_missed path.now to.entry now
        errands.items journal.old journal.new)
        (λ _. IsLeft J.held J.is_missed journal.old journal.new) }
{
    if is_etcd(path) {
        return step_in_etcd(rt, alloc, path, last, to, errands, now, engine, journal);
    }
    step_in_file(rt, alloc, path, last, to, errands, now, journal)
}

/// The steps at the controller under the key that a path names, if that is one that is addressed,
/// by what comes that no client waits for, at the time of the clock. Nothing is done where the
/// engine is left alone.
fn step_own_in_etcd<R: Net + Clock, J: Journal>(
    rt: &R,
    alloc: Global,
    path: &str,
    last: Option<SavedState>,
    to: Addressee<'_>,
    all: Vec<Coming>,
    engine: &mut Engine,
    journal: &mut J,
) -> OwnStepResult
    ensures { (at : ℕ) × OwnStepsAt R true path.now to.entry at all.items last result
        × (J.is_honest journal.old ≡ true
        → KeepsOwnJournal J.held J.is_missed at all.items journal.old journal.new result) }
{
    let Some(at) = seconds(rt) else {
        drop(last);
        drop(all);
        return OwnStepResult::Failed;
    };
    match keep_for(rt, alloc, path, engine) {
        Ok(Some(keep)) => {
            let asked = Instant::now(rt).ok();
            let stepped = step_own_kept(alloc, keep, last, to, all, at, journal);
            let is_failed = match &stepped {
                OwnStepResult::Failed => true,
                OwnStepResult::Stepped(_, _) | OwnStepResult::LockedOut(_, _) => false,
            };
            engine.note(rt, asked, is_failed);
            stepped
        }
        Ok(None) | Err(_) => {
            drop(last);
            drop(all);
            OwnStepResult::Failed
        }
    }
}

/// The same at the controller at a path, in its file or under its key.
pub fn step_own_at<R: Locks + Net + Clock, J: Journal>(
    rt: &R,
    alloc: Global,
    path: &str,
    last: Option<SavedState>,
    to: Addressee<'_>,
    all: Vec<Coming>,
    engine: &mut Engine,
    journal: &mut J,
) -> OwnStepResult
    // Proved: What no client waits for comes, at one time, to the controller at a path, if that is
    // one that is addressed: in the file of this path, or, where the path is to be a place in etcd,
    // under the key that it names, and never in a file; and an honest journal gets its lines, as it
    // does of clients. Where somebody else has the file locked all is given back as it was.
    // By `step_own_found`: `steps`, `journaled`.
    ensures { (at : ℕ) × OwnStepsAt R (is_etcd_text path.now) path.now to.entry at all.items last
        result × (J.is_honest journal.old ≡ true
        → KeepsOwnJournal J.held J.is_missed at all.items journal.old journal.new result) }
{
    if is_etcd(path) {
        return step_own_in_etcd(rt, alloc, path, last, to, all, engine, journal);
    }
    step_own_in_file(rt, alloc, path, last, to, all, journal)
}

/// What a keeper holds, if it gives that. The keeper is let go.
fn loaded<K: Keep>(keep: K) -> Option<Vec<u8>> {
    let mut keep = keep;
    keep.load().ok()
}

/// The value under the key that a path names, if the engine gives it.
fn value_at<R: Net + Clock>(
    rt: &R,
    alloc: Global,
    path: &str,
    engine: &mut Engine,
) -> Option<Vec<u8>> {
    match keep_for(rt, alloc, path, engine) {
        Ok(Some(keep)) => {
            let asked = Instant::now(rt).ok();
            let value = loaded(keep);
            engine.note(rt, asked, value.is_none());
            value
        }
        Ok(None) | Err(_) => None,
    }
}

/// The controller at a path, in its file or under its key, if that is one that is addressed.
pub fn look_at_path<R: Locks + Net + Clock>(
    rt: &R,
    alloc: Global,
    path: &str,
    to: Addressee<'_>,
    last: &Option<SavedState>,
    engine: &mut Engine,
) -> Look
    // Proved: A controller that is seen at a path is one that is addressed; that it is as it was
    // saved last is told only of one that was; only of a file it is told that somebody else has it
    // locked, and only of a place in etcd that the engine doesn't tell.
    // By `look_at`.
    ensures { IsSeenAt (is_etcd_text path.now) to.entry last.now result }
{
    if !is_etcd(path) {
        return look_in_file(rt, alloc, path, to, last);
    }
    match value_at(rt, alloc, path, engine) {
        Some(bytes) => look_at(alloc, Ok(Some(MemoryKeep::new(bytes))), to, last),
        None => Look::Unanswered,
    }
}

/// Whether the engine answers what is under the key that a path names.
pub fn answers<R: Net + Clock>(rt: &R, alloc: Global, path: &str, engine: &mut Engine) -> bool {
    value_at(rt, alloc, path, engine).is_some()
}

/// Whether a controller can be loaded at a path, of its file or its key. Refuses `LoadFailed`, what
/// is held there is refused for, and `Memory`; `LoadFailed` also where a path that is to be a place
/// in etcd is none.
pub fn check_path<R: Locks + Net + Clock>(rt: &R, alloc: Global, path: &str) -> Result<(), Refused>
    // Proved: Nothing can be loaded of a path that is to be a place in etcd and is none, and no
    // file is looked for there.
    ensures { is_etcd_text path.now ≡ true → etcd_place_in path.now ≡ None
        → result ≡ Err LoadFailed }
{
    if !is_etcd(path) {
        return check_file(rt, alloc, path);
    }
    match keep_for(rt, alloc, path, &Engine::new()) {
        Ok(Some(keep)) => check_found(alloc, Ok(keep)),
        Ok(None) | Err(_) => Err(Refused::LoadFailed),
    }
}
