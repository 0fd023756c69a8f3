//! Those who wait for one controller, and what they are told.

ghost use Rattle.std.specs.Prelude.{◌≡◌, ◌≤◌, [], length, map, vec_capacity};
ghost use Rattle.http_message.specs.Status.{status_of as status_for};
ghost use Rattle.rounds.specs.Line as line;
ghost use Rattle.rounds.specs.Line.{AreTold, AreToldOf, TellsLine};

use crate::errand::Errand;
use crate::recipient::Recipient;
use crate::room::Room;
use crate::round_keep::RoundKeep;
use crate::waiting::WaitingClient;
use std::alloc::Global;
use stored_state::{Addressee, Coming, SavedState, TakenBytes};
use streams::Refused;
use ticket_items::Refusal;

/// Parts errands into those who wait and what has come.
fn waiting_and_comings<S: Drop>(
    errands: Vec<Errand<S>>,
    mut waiting: Vec<WaitingClient<S>>,
    mut comings: Vec<Coming>,
) -> (Vec<WaitingClient<S>>, Vec<Coming>)
    requires no_waiting { waiting.items ≡ [] }
    requires no_comings { comings.items ≡ [] }
    requires waiting { length errands.items ≤ vec_capacity waiting }
    requires comings { length errands.items ≤ vec_capacity comings }
    ensures waiting { result.0.items ≡ line.waiting_of errands.items }
    ensures comings { result.1.items ≡ line.comings_of errands.items }
{
    for errand in errands {
        waiting.push_reserved(errand.waiting);
        comings.push_reserved(errand.coming);
    }
    (waiting, comings)
}

/// Refuses each of those who wait.
fn refuse_all<S: Drop, A: Recipient<S>>(
    alloc: Global,
    waiting: Vec<WaitingClient<S>>,
    mut answered: Vec<A>,
    refused: Refused,
    now: u64,
) -> Vec<A>
    requires empty { answered.items ≡ [] }
    requires room { length waiting.items ≤ vec_capacity answered }
    ensures { AreToldOf (A.is_told now) refused waiting.items result.items }
{
    let why = &refused;
    for one in waiting {
        answered.push_reserved(A::tell(alloc, one, Err(*why), now));
    }
    answered
}

/// Refuses each of those with an errand.
pub fn refuse_errands<S: Drop, A: Recipient<S>>(
    alloc: Global,
    errands: Vec<Errand<S>>,
    room: Room<S, A>,
    refused: Refused,
    now: u64,
) -> Vec<A>
    // Wants: room for each response.
    requires { line.HasRoom (length errands.items) room }
    ensures { AreToldOf (A.is_told now) refused (line.waiting_of errands.items) result.items }
{
    let Room {
        answered,
        waiting,
        comings,
    } = room;
    let (waiting, comings) = waiting_and_comings(errands, waiting, comings);
    drop(comings);
    refuse_all(alloc, waiting, answered, refused, now)
}

/// What came of a message that was handed on.
fn taken_bytes_of(given: Result<TakenBytes, Refusal>) -> Result<TakenBytes, Refused>
    ensures { result ≡ line.taken_bytes_of given }
{
    match given {
        Ok(taken) => Ok(taken),
        Err(refusal) => Err(Refused::Core(refusal)),
    }
}

/// Tells each of those who wait what came of the errand.
fn give_all<S: Drop, A: Recipient<S>>(
    alloc: Global,
    waiting: Vec<WaitingClient<S>>,
    mut answered: Vec<A>,
    given: Vec<Result<TakenBytes, Refusal>>,
    now: u64,
) -> Vec<A>
    requires empty { answered.items ≡ [] }
    requires room { length waiting.items ≤ vec_capacity answered }
    requires each { length given.items ≡ length waiting.items }
    ensures { AreTold (A.is_told now) (map line.taken_bytes_of given.items) waiting.items
        result.items }
{
    for (one, taken) in waiting.into_iter().zip(given) {
        answered.push_reserved(A::tell(alloc, one, taken_bytes_of(taken), now));
    }
    answered
}

/// Why nothing is given out where the controller isn't loaded or saved, as clients are told it:
/// what a file holds is refused for is none of their business.
fn refused_to_clients(refused: Refused) -> Refused
    ensures { status_for result ≡ 503 }
{
    match refused {
        Refused::Core(Refusal::Memory) | Refused::OtherName | Refused::SaveFailed => refused,
        _ => Refused::LoadFailed,
    }
}

/// Hands the controller that a keeper holds what those who wait have come for, one after the other,
/// at a time in seconds since 1970, saves its state once behind the last, and gives each the
/// response at this moment, in milliseconds: who sent a message the answer to it, who gave an order
/// what was replied. Gives the controller with the text that was saved. Where it can't be loaded or
/// saved, or isn't one that is addressed, each is refused with a status of 503.
pub fn answer_all<K: RoundKeep, S: Drop, A: Recipient<S>>(
    alloc: Global,
    keep: &mut K,
    last: Option<SavedState>,
    to: Addressee<'_>,
    errands: Vec<Errand<S>>,
    room: Room<S, A>,
    at: u64,
    now: u64,
) -> (Vec<A>, Option<SavedState>)
    // Wants: room for each response.
    requires { line.HasRoom (length errands.items) room }
    // Proved: Each client who waits for a controller gets the response to what came of the
    // client's own request: what clients have come for came to it one after the other, it is one
    // that is addressed, and the state behind the last is held before any response is given; so a
    // 200 tells of a step that is saved. What the message was taken as is told, and who sent it.
    // By `steps`, `place`; `RoundKeep::take_round`: `ok`, `each`, `place`, `refused`;
    // `Room::new`, `AnsweredClient::tell`.
    // Not proved: that memory doesn't run out for a response.
    // Proved: Where the controller can't be loaded or saved, or isn't one that is addressed, each
    // is refused with a status of 503, and what is held is what was, or the state behind the last.
    // By `steps`; `refuse_errands`, `refuse`.
    ensures steps { TellsLine (A.is_told now) K.is_honest K.held K.place K.count K.load_fails
        K.save_fails to.entry at keep.old keep.new errands.items result.0.items result.1 }
    ensures place { K.place keep.new ≡ K.place keep.old }
{
    let Room {
        answered,
        waiting,
        comings,
    } = room;
    let (waiting, comings) = waiting_and_comings(errands, waiting, comings);
    match keep.take_round(alloc, last, to, comings, at) {
        Ok((given, saved)) => (give_all(alloc, waiting, answered, given, now), saved),
        Err(refused) => {
            let refused = refused_to_clients(refused);
            (refuse_all(alloc, waiting, answered, refused, now), None)
        }
    }
}
