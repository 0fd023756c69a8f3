//! The steps of a controller by orders that come over the local socket.

ghost use Rattle.std.specs.Prelude.{◌≡◌, length, false, true, IfOk, MatchResult};
ghost use Rattle.journal.specs.Journal.{IsLeft};
ghost use Rattle.rounds.specs.Line.{AreToldOf, HasRoom, waiting_of};
ghost use Rattle.rounds.specs.Orders.{HasReply};
ghost use Rattle.etcd_place.specs.Place.{is_etcd as is_etcd_text};
ghost use Rattle.server_steps.specs.OrderLines.{OrdersJournalAt, OrdersKeepJournal};
ghost use Rattle.server_steps.specs.Orders.{AreOrdersStepped, AreOrdersSteppedAt, OrdersKept};

use crate::engine::{Engine, orders_are_failed};
use crate::etcd_steps::keep_for;
use crate::journaling::{journal_order_steps, words_of};
use etcd_place::is_etcd;
use journal::{Journal, seconds};
use keepers::{FileKeep, Locks};
use mio::net::UnixStream;
use rounds::{AnsweredOperator, Errand, Room, RoundKeep, answer_all, refuse_errands};
use std::alloc::{AllocError, Global};
use std::net::Net;
use std::time::{Clock, Instant};
use stored_state::{Addressee, SavedState};
use streams::Refused;

/// What came of orders.
#[derive(Drop)]
pub enum OrdersResult {
    /// Each has the response; and the controller as it was saved, if it was.
    Told(Vec<AnsweredOperator<UnixStream>>, Option<SavedState>),
    /// Somebody else has its file locked, and nothing was done.
    LockedOut(Vec<Errand<UnixStream>>, Option<SavedState>),
}

/// Refuses each of these orders.
pub fn refused_orders(
    alloc: Global,
    orders: Vec<Errand<UnixStream>>,
    refused: Refused,
    now: u64,
) -> Result<Vec<AnsweredOperator<UnixStream>>, AllocError>
    // Proved: Who gave an order that is refused has the response to that, each under its own
    // number.
    ensures { IfOk result (λ told. AreToldOf (HasReply now) refused
        (waiting_of orders.items) told.items) }
{
    let room = Room::new(alloc, orders.len())?;
    Ok(refuse_errands(alloc, orders, room, refused, now))
}

/// What became of the orders for the controller that a keeper holds, if that is one that is
/// addressed, by its steps at the time of the clock; each is refused where that tells no time since
/// 1970. The lines of the steps are appended to the journal behind the save, and then the keeper is
/// let go.
fn order_kept<R: Clock, K: RoundKeep, J: Journal, S: Drop>(
    rt: &R,
    alloc: Global,
    mut keep: K,
    last: Option<SavedState>,
    to: Addressee<'_>,
    orders: Vec<Errand<S>>,
    room: Room<S, AnsweredOperator<S>>,
    now: u64,
    journal: &mut J,
) -> (Vec<AnsweredOperator<S>>, Option<SavedState>)
    requires { HasRoom (length orders.items) room }
    ensures steps { OrdersKept K.is_honest K.held K.place K.count K.load_fails K.save_fails keep
        to.entry now orders.items result.0.items result.1 }
    ensures journaled { J.is_honest journal.old ≡ true → OrdersKeepJournal K.is_honest K.held
        K.place K.count K.load_fails K.save_fails J.held J.is_missed keep to.entry now orders.items
        result.0.items result.1 journal.old journal.new }
{
    match seconds(rt) {
        Some(at) => {
            let words = words_of(alloc, journal, orders.as_slice());
            let (told, saved) = answer_all(alloc, &mut keep, last, to, orders, room, at, now);
            journal_order_steps(alloc, journal, words, told.as_slice(), &saved, at);
            (told, saved)
        }
        None => {
            drop(last);
            (
                refuse_errands(alloc, orders, room, Refused::ReadFailed, now),
                None,
            )
        }
    }
}

/// The steps by orders at the controller in the file of this path, if that is one that is
/// addressed, which has its lock meanwhile.
fn order_in_file<R: Locks + Clock, J: Journal>(
    rt: &R,
    alloc: Global,
    path: &str,
    last: Option<SavedState>,
    to: Addressee<'_>,
    orders: Vec<Errand<UnixStream>>,
    now: u64,
    journal: &mut J,
) -> Result<OrdersResult, AllocError>
    ensures steps { IfOk result (AreOrdersStepped path.now to.entry now orders.items last) }
    ensures journaled { J.is_honest journal.old ≡ true → MatchResult result
        (OrdersJournalAt R false J.held J.is_missed path.now to.entry now orders.items journal.old
        journal.new) (λ _. IsLeft J.held J.is_missed journal.old journal.new) }
{
    let room = Room::new(alloc, orders.len())?;
    match FileKeep::try_lock(rt, alloc, path) {
        Ok(Some(keep)) => {
            let (told, saved) = order_kept(rt, alloc, keep, last, to, orders, room, now, journal);
            Ok(OrdersResult::Told(told, saved))
        }
        Ok(None) => Ok(OrdersResult::LockedOut(orders, last)),
        Err(_) => {
            let refused = Refused::LoadFailed;
            Ok(OrdersResult::Told(refuse_errands(alloc, orders, room, refused, now), None))
        }
    }
}

/// The steps by orders at the controller under the key that a path names, if that is one that is
/// addressed. Each is refused where the engine is left alone.
fn order_in_etcd<R: Net + Clock, J: Journal>(
    rt: &R,
    alloc: Global,
    path: &str,
    last: Option<SavedState>,
    to: Addressee<'_>,
    orders: Vec<Errand<UnixStream>>,
    now: u64,
    engine: &mut Engine,
    journal: &mut J,
) -> Result<OrdersResult, AllocError>
    ensures steps { IfOk result
        (AreOrdersSteppedAt R true path.now to.entry now orders.items last) }
    ensures journaled { J.is_honest journal.old ≡ true → MatchResult result
        (OrdersJournalAt R true J.held J.is_missed path.now to.entry now orders.items journal.old
        journal.new) (λ _. IsLeft J.held J.is_missed journal.old journal.new) }
{
    let room = Room::new(alloc, orders.len())?;
    let found = keep_for(rt, alloc, path, engine)?;
    let Some(keep) = found else {
        drop(last);
        let told = refuse_errands(alloc, orders, room, Refused::LoadFailed, now);
        return Ok(OrdersResult::Told(told, None));
    };
    let asked = Instant::now(rt).ok();
    let (told, saved) = order_kept(rt, alloc, keep, last, to, orders, room, now, journal);
    engine.note(rt, asked, orders_are_failed(told.as_slice()));
    Ok(OrdersResult::Told(told, saved))
}

/// The steps by orders at the controller at a path, in its file or under its key, if that is one
/// that is addressed.
pub fn order_at<R: Locks + Net + Clock, J: Journal>(
    rt: &R,
    alloc: Global,
    path: &str,
    last: Option<SavedState>,
    to: Addressee<'_>,
    orders: Vec<Errand<UnixStream>>,
    now: u64,
    engine: &mut Engine,
    journal: &mut J,
) -> Result<OrdersResult, AllocError>
    // Proved: Those who gave orders for the controller at a path are answered as `answer_all` says,
    // by the keeper in the file of this path, or, where the path is to be a place in etcd, by one
    // of the key that it names; or each is refused with 503; or somebody else has the file locked,
    // and they wait on. A journal that is honest gets, behind the save, a line of each order that
    // was taken and has a name, in turn, with no sender; or it misses them, which is told; where
    // nothing was saved it is left as it was.
    // By `steps`, `journaled`.
    ensures steps { IfOk result (AreOrdersSteppedAt R (is_etcd_text path.now) path.now to.entry now
        orders.items last) }
    ensures journaled { J.is_honest journal.old ≡ true → MatchResult result
        (OrdersJournalAt R (is_etcd_text path.now) J.held J.is_missed path.now to.entry now
        orders.items journal.old journal.new)
        (λ _. IsLeft J.held J.is_missed journal.old journal.new) }
{
    if is_etcd(path) {
        return order_in_etcd(rt, alloc, path, last, to, orders, now, engine, journal);
    }
    order_in_file(rt, alloc, path, last, to, orders, now, journal)
}
