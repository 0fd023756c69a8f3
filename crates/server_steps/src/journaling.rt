//! The lines of the steps of one turn, which are appended at once.

ghost use Rattle.std.specs.Prelude.{◌≡◌, ◌++◌, List, Option, Some, true, map, option_map};
ghost use Rattle.std.specs.Prelude.{IfOk, MatchResult, OnOk};
ghost use Rattle.std.specs.List.{AllZip};
ghost use Rattle.journal.specs.Journal.{Misses};
ghost use Rattle.rounds.specs.Line.{comings_of};
ghost use Rattle.stored_state.specs.Addressee.{name_of};
ghost use Rattle.stored_state.specs.declared.coming.Coming.{Coming};
ghost use Rattle.server_steps.specs.Journaled as told;
ghost use Rattle.server_steps.specs.Journaled.{AreJournaled, StepName, StepsJournaled};
ghost use Rattle.server_steps.specs.OrderLines.{IsNameOf, OrdersJournaled, kept_name, order_line};
ghost use Rattle.server_steps.specs.OrderLines.{order_lines, reply_in};

use controller::{Body, Reply};
use journal::{Journal, message_word, order_word, step_line};
use rounds::{AnsweredClient, AnsweredOperator, Errand};
use std::alloc::{AllocError, Global};
use stored_state::{AnyController, Coming, SavedState, TakenBytes};
use ticket_items::{Id, Refusal};

/// The only order that `serve` gives.
const RESEND: &str = "Resend";

/// What a step is made of.
#[derive(Clone, Copy)]
pub(crate) struct Call {
    /// Its name.
    what: &'static str,
    /// Whether it is that a spawn is to be given up.
    is_abort: bool,
}

/// What comes, as a line tells it; nothing of what makes no step.
fn call_of(coming: &Coming) -> Option<Call>
    ensures { told.step_of_call result ≡ told.called_of_coming coming.now }
{
    match coming {
        Coming::Message(message) => Some(Call {
            what: message_word(&message.body),
            is_abort: matches!(&message.body, Body::Abort(_)),
        }),
        Coming::Order(_) => Some(Call {
            what: RESEND,
            is_abort: false,
        }),
        Coming::Neither(_) => None,
    }
}

/// The same of each of these, where a journal is wanted.
pub(crate) fn calls_of_comings<J: Journal>(
    alloc: Global,
    journal: &J,
    comings: &[Coming],
) -> Result<Vec<Option<Call>>, AllocError>
    ensures { J.is_honest journal.now ≡ true → IfOk result (λ calls.
        map told.step_of_call calls.items ≡ map told.called_of_coming comings.now) }
{
    let mut calls = Vec::new(alloc);
    if !journal.is_wanted() {
        return Ok(calls);
    }
    for coming in comings {
        calls.push(call_of(coming))?;
    }
    Ok(calls)
}

/// The same of what clients have come for.
pub(crate) fn calls_of_errands<J: Journal, S: Drop>(
    alloc: Global,
    journal: &J,
    errands: &[Errand<S>],
) -> Result<Vec<Option<Call>>, AllocError>
    ensures { J.is_honest journal.now ≡ true → IfOk result (λ calls.
        map told.step_of_call calls.items ≡ map told.called_of_coming (comings_of errands.now)) }
{
    let mut calls = Vec::new(alloc);
    if !journal.is_wanted() {
        return Ok(calls);
    }
    for errand in errands {
        calls.push(call_of(&errand.coming))?;
    }
    Ok(calls)
}

/// Whether a step that replied so left its controller as it was, so that nothing was to be saved.
fn is_idle(call: &Call, reply: &Reply) -> bool
    ensures { result ≡ told.is_idle (told.kept_call call.now) reply.now }
{
    !call.is_abort
        && matches!(
            reply,
            Reply::Sent(_) | Reply::Already(_) | Reply::Noted(_) | Reply::Again(_) | Reply::Asked(_)
        )
}

/// Appends the line of a step of this controller to lines, if it changed it.
fn push_line(
    alloc: Global,
    lines: &mut Vec<u8>,
    controller: &AnyController,
    call: &Option<Call>,
    by: &str,
    reply: &Reply,
    at: u64,
) -> Result<(), AllocError>
    ensures { OnOk result (lines.new.items ≡ lines.old.items
        ++ told.line_for (name_of controller.now) at (told.step_of_call call.now)
        (Some (record { reply = reply.now; sender = by.now }))) }
{
    let Some(call) = call else {
        return Ok(());
    };
    if is_idle(call, reply) {
        return Ok(());
    }
    let (what, reply) = (call.what, *reply);
    let line = step_line(alloc, controller.name(), Some(by), what, reply, at)?;
    lines.extend_from_slice(line.as_slice())
}

/// Appends the line of a step that a client came for to lines, if it changed its controller.
fn push_answered<S: Drop>(
    alloc: Global,
    lines: &mut Vec<u8>,
    controller: &AnyController,
    call: &Option<Call>,
    answered: &AnsweredClient<S>,
    at: u64,
) -> Result<(), AllocError>
    ensures { OnOk result (lines.new.items ≡ lines.old.items
        ++ told.line_for (name_of controller.now) at (told.step_of_call call.now)
        (told.taken_from_client answered.now)) }
{
    match &answered.taken {
        Some(taken) => {
            let by = taken.sender.as_str();
            push_line(alloc, lines, controller, call, by, &taken.reply, at)
        }
        None => Ok(()),
    }
}

/// By whom a step is that no client waits for. What is ordered by itself is by `serve`.
fn maker_of(sender: &Option<Id>) -> &str
    ensures { result.now ≡ told.maker_of sender.now }
{
    match sender {
        Some(sender) => sender.as_str(),
        None => "serve",
    }
}

/// Appends the line of a step that no client waits for to lines, if it changed its controller.
fn push_given(
    alloc: Global,
    lines: &mut Vec<u8>,
    controller: &AnyController,
    call: &Option<Call>,
    given: &Result<TakenBytes, Refusal>,
    at: u64,
) -> Result<(), AllocError>
    ensures { OnOk result (lines.new.items ≡ lines.old.items
        ++ told.line_for (name_of controller.now) at (told.step_of_call call.now)
        (told.taken_from_result given.now)) }
{
    if let Ok(taken) = given
        && let Ok(reply) = &taken.reply
    {
        let by = maker_of(&taken.sender);
        return push_line(alloc, lines, controller, call, by, reply, at);
    }
    Ok(())
}

/// The lines of the steps that clients came for.
fn answered_lines<S: Drop>(
    alloc: Global,
    calls: &[Option<Call>],
    answered: &[AnsweredClient<S>],
    controller: &AnyController,
    at: u64,
) -> Result<Vec<u8>, AllocError>
    ensures { IfOk result (λ lines. lines.items ≡ told.lines_for (name_of controller.now) at
        (map told.step_of_call calls.now) (map told.taken_from_client answered.now)) }
{
    let mut lines = Vec::new(alloc);
    for (call, one) in calls.iter().zip(answered.iter()) {
        push_answered(alloc, &mut lines, controller, call, one, at)?;
    }
    Ok(lines)
}

/// The lines of the steps of what no client waits for.
fn given_lines(
    alloc: Global,
    calls: &[Option<Call>],
    given: &[Result<TakenBytes, Refusal>],
    controller: &AnyController,
    at: u64,
) -> Result<Vec<u8>, AllocError>
    ensures { IfOk result (λ lines. lines.items ≡ told.lines_for (name_of controller.now) at
        (map told.step_of_call calls.now) (map told.taken_from_result given.now)) }
{
    let mut lines = Vec::new(alloc);
    for (call, one) in calls.iter().zip(given.iter()) {
        push_given(alloc, &mut lines, controller, call, one, at)?;
    }
    Ok(lines)
}

/// Appends lines that were made, if there are any.
fn append_made<J: Journal>(journal: &mut J, lines: &[u8])
    ensures { J.is_honest journal.old ≡ true
        → AreJournaled J.held J.is_missed lines.now journal.old journal.new }
{
    if lines.is_empty() {
        return;
    }
    journal.append(lines);
}

/// Appends lines, if there are any; where memory ran out for them the journal misses them.
fn append<J: Journal>(journal: &mut J, lines: Result<Vec<u8>, AllocError>)
    ensures { J.is_honest journal.old ≡ true → MatchResult lines
        (λ made. AreJournaled J.held J.is_missed made.items journal.old journal.new)
        (λ _. Misses J.held J.is_missed journal.old journal.new) }
{
    match lines {
        Ok(lines) => append_made(journal, lines.as_slice()),
        Err(AllocError) => journal.miss(),
    }
}

/// Appends the lines of the steps that clients came for and that were saved.
pub(crate) fn journal_clients_steps<J: Journal, S: Drop>(
    alloc: Global,
    journal: &mut J,
    calls: Result<Vec<Option<Call>>, AllocError>,
    answered: &[AnsweredClient<S>],
    saved: &Option<SavedState>,
    at: u64,
)
    ensures { J.is_honest journal.old ≡ true → (all : List (Option StepName))
        → IfOk calls (λ calls. map told.step_of_call calls.items ≡ all)
        → StepsJournaled J.held J.is_missed at all
        (map told.taken_from_client answered.now) saved.now
        journal.old journal.new }
{
    let Some(saved) = saved else {
        return;
    };
    match calls {
        Ok(calls) => append(
            journal,
            answered_lines(alloc, calls.as_slice(), answered, saved.controller(), at),
        ),
        Err(AllocError) => journal.miss(),
    }
}

/// The same of what no client waits for.
pub(crate) fn journal_own_steps<J: Journal>(
    alloc: Global,
    journal: &mut J,
    calls: Result<Vec<Option<Call>>, AllocError>,
    given: &[Result<TakenBytes, Refusal>],
    saved: &Option<SavedState>,
    at: u64,
)
    ensures { J.is_honest journal.old ≡ true → (all : List (Option StepName))
        → IfOk calls (λ calls. map told.step_of_call calls.items ≡ all)
        → StepsJournaled J.held J.is_missed at all (map told.taken_from_result given.now) saved.now
        journal.old journal.new }
{
    let Some(saved) = saved else {
        return;
    };
    match calls {
        Ok(calls) => append(
            journal,
            given_lines(alloc, calls.as_slice(), given, saved.controller(), at),
        ),
        Err(AllocError) => journal.miss(),
    }
}

/// The name of an order; nothing of what is none.
fn word_of(alloc: Global, coming: &Coming) -> Result<Option<String>, AllocError>
    ensures { IfOk result (λ word. IsNameOf coming.now (kept_name word)) }
{
    match coming {
        Coming::Order(bytes) => match order_word(alloc, bytes.as_slice()) {
            Ok(word) => Ok(Some(word)),
            Err(refusal) => {
                if refusal == Refusal::Memory {
                    return Err(AllocError);
                }
                Ok(None)
            }
        },
        Coming::Message(_) | Coming::Neither(_) => Ok(None),
    }
}

/// The names of orders, where a journal is wanted; nothing of what is none.
pub(crate) fn words_of<J: Journal, S: Drop>(
    alloc: Global,
    journal: &J,
    orders: &[Errand<S>],
) -> Result<Vec<Option<String>>, AllocError>
    ensures { J.is_honest journal.now ≡ true → IfOk result
        (λ words. AllZip IsNameOf (comings_of orders.now) (map kept_name words.items)) }
{
    let mut words = Vec::new(alloc);
    if !journal.is_wanted() {
        return Ok(words);
    }
    for order in orders {
        words.push(word_of(alloc, &order.coming)?)?;
    }
    Ok(words)
}

/// Appends the line of the step by an order to lines, if it was taken. Who gave it over the local
/// socket isn't known.
fn push_ordered<S: Drop>(
    alloc: Global,
    lines: &mut Vec<u8>,
    controller: &AnyController,
    word: &Option<String>,
    ordered: &AnsweredOperator<S>,
    at: u64,
) -> Result<(), AllocError>
    ensures { OnOk result (lines.new.items ≡ lines.old.items
        ++ order_line (name_of controller.now) at (kept_name word.now) (reply_in ordered.now)) }
{
    if let (Some(word), Some(reply)) = (word, ordered.reply) {
        let line = step_line(alloc, controller.name(), None, word.as_str(), reply, at)?;
        lines.extend_from_slice(line.as_slice())?;
    }
    Ok(())
}

/// The lines of the steps by orders.
fn ordered_lines<S: Drop>(
    alloc: Global,
    words: &[Option<String>],
    ordered: &[AnsweredOperator<S>],
    controller: &AnyController,
    at: u64,
) -> Result<Vec<u8>, AllocError>
    ensures { IfOk result (λ lines. lines.items ≡ order_lines (name_of controller.now) at
        (map kept_name words.now) (map reply_in ordered.now)) }
{
    let mut lines = Vec::new(alloc);
    for (word, one) in words.iter().zip(ordered.iter()) {
        push_ordered(alloc, &mut lines, controller, word, one, at)?;
    }
    Ok(lines)
}

/// Appends the lines of the steps by orders that were saved.
pub(crate) fn journal_order_steps<J: Journal, S: Drop>(
    alloc: Global,
    journal: &mut J,
    words: Result<Vec<Option<String>>, AllocError>,
    ordered: &[AnsweredOperator<S>],
    saved: &Option<SavedState>,
    at: u64,
)
    ensures { J.is_honest journal.old ≡ true → (all : List Coming)
        → IfOk words (λ words. AllZip IsNameOf all (map kept_name words.items))
        → OrdersJournaled J.held J.is_missed at all (map reply_in ordered.now) saved.now journal.old
        journal.new }
{
    let Some(saved) = saved else {
        return;
    };
    match words {
        Ok(words) => append(
            journal,
            ordered_lines(alloc, words.as_slice(), ordered, saved.controller(), at),
        ),
        Err(AllocError) => journal.miss(),
    }
}
