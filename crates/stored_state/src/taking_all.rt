//! What comes to a controller, one thing after the other, with one save behind the last.

ghost use Rattle.std.specs.Prelude.{◌≡◌, ◌≤◌, Ok, true, IfOk, IfErr, IfSome, length};
ghost use Rattle.std.specs.List.{list_all};
ghost use Rattle.std.specs.Option.{option_map};
ghost use Rattle.std.specs.Prelude.{is_err};
ghost use Rattle.controller.specs.Words.{may_be_sent};
ghost use Rattle.controller_form.specs.Orders.MasterForm.{master_order_read};
ghost use Rattle.controller_form.specs.Orders.WorkerForm.{worker_order_read};
ghost use Rattle.json_profile.specs.ReadAs.{IsReadAs, IsRefusalOf};
ghost use Rattle.master_core.specs.Orders as orders;
ghost use Rattle.worker_core.specs.Orders as worker_orders;
ghost use Rattle.stored_state.specs.Addressee.{is_addressed};
ghost use Rattle.stored_state.specs.AnyStep.{text_of};
ghost use Rattle.stored_state.specs.Cause.{step_on};
ghost use Rattle.stored_state.specs.Message.{message_text as text_sent};
ghost use Rattle.stored_state.specs.Opened.{any_state_read};
ghost use Rattle.stored_state.specs.TakingAll.{Gives, GivesOne, IsNotTakenFrom, Makes, OrdersOne};
ghost use Rattle.stored_state.specs.TakingAll.{TakesAll, TakesFrom, TakesNone};

use crate::addressee::Addressee;
use crate::any_controller::{AnyController, controller_of};
use crate::cause::{StepInput, make};
use crate::coming::Coming;
use crate::orders::{master_order, worker_order};
use crate::saved::SavedState;
use crate::stored::StoredController;
use crate::storing::{load_bytes, message_text, save};
use crate::taken_bytes::TakenBytes;
use controller::{Message, Outcome};
use keepers::Keep;
use master_core::Master;
use std::alloc::{AllocError, Global};
use streams::Refused;
use ticket_tree::{Duplicate, Id, Refusal};
use worker_core::Worker;

/// What an outcome gives out, of a message from this sender if it has one.
fn bytes_of(alloc: Global, sender: Option<Id>, outcome: Outcome) -> Result<TakenBytes, AllocError>
    requires { IfSome outcome.answer (λ m. may_be_sent m.body ≡ true) }
    ensures sender { IfOk result (λ taken. taken.sender ≡ sender) }
    ensures reply { IfOk result (λ taken. taken.reply ≡ outcome.reply) }
    ensures answer { IfOk result (λ taken. option_map (λ b. b.items) taken.answer
        ≡ option_map text_sent outcome.answer) }
{
    let Outcome { reply, answer } = outcome;
    let text = message_text(alloc, &answer);
    drop(answer);
    Ok(TakenBytes {
        sender,
        reply,
        answer: text?,
    })
}

/// What a step of a controller gives out, or that memory ran out for it, and whether the controller
/// stays as it was. At an `Err`, where memory runs out for the text that goes out, the controller
/// is the one behind the step.
fn make_step<C: StoredController>(
    alloc: Global,
    controller: &mut C,
    sender: Option<Id>,
    cause: StepInput<C::Order>,
    at: u64,
) -> Result<(Result<TakenBytes, Refusal>, bool), AllocError>
    ensures makes { IfOk result (λ made. Makes
        (step_on C.order_step C.take_step cause at controller.old) sender controller.old made.0
        controller.new) }
    ensures same { IfOk result (λ made. made.1 ≡ true → controller.new ≡ controller.old) }
{
    match make(alloc, controller, cause, at) {
        Ok((outcome, is_same)) => {
            let taken = bytes_of(alloc, sender, outcome)?;
            Ok((Ok(taken), is_same))
        }
        Err(AllocError) => {
            drop(sender);
            Ok((Err(Refusal::Memory), true))
        }
    }
}

/// What a message gives out, whichever the controller is, and whether that stays as it was.
fn take_message(
    alloc: Global,
    controller: &mut AnyController,
    message: Message,
    at: u64,
) -> Result<(Result<TakenBytes, Refusal>, bool), AllocError>
    ensures gives { IfOk result (λ taken. GivesOne at (Coming.Message message) controller.old
        taken.0 controller.new) }
    ensures same { IfOk result (λ taken. taken.1 ≡ true → controller.new ≡ controller.old) }
{
    let sender = match message.sender.copy(alloc) {
        Ok(sender) => Some(sender),
        Err(AllocError) => {
            drop(message);
            return Ok((Err(Refusal::Memory), true));
        }
    };
    match controller {
        AnyController::Master(master) => {
            make_step(alloc, master, sender, StepInput::Message(message), at)
        }
        AnyController::Worker(worker) => {
            make_step(alloc, worker, sender, StepInput::Message(message), at)
        }
    }
}

/// What the order that a text is gives out of a master, or why no step is made of it, and whether
/// the master stays as it was.
fn order_master(
    alloc: Global,
    master: &mut Master,
    text: &[u8],
    at: u64,
) -> Result<(Result<TakenBytes, Refusal>, bool), AllocError>
    ensures read { IfOk result (λ given. OrdersOne master_order_read orders.order_step text.now at
        master.old given.0 master.new) }
    ensures same { IfOk result (λ given. given.1 ≡ true → master.new ≡ master.old) }
{
    match master_order(alloc, text) {
        Ok(order) => make_step(alloc, master, None, StepInput::Order(order), at),
        Err(refusal) => Ok((Err(refusal), true)),
    }
}

/// The same of a worker.
fn order_worker(
    alloc: Global,
    worker: &mut Worker,
    text: &[u8],
    at: u64,
) -> Result<(Result<TakenBytes, Refusal>, bool), AllocError>
    ensures read { IfOk result (λ given. OrdersOne worker_order_read worker_orders.order_step
        text.now at worker.old given.0 worker.new) }
    ensures same { IfOk result (λ given. given.1 ≡ true → worker.new ≡ worker.old) }
{
    match worker_order(alloc, text) {
        Ok(order) => make_step(alloc, worker, None, StepInput::Order(order), at),
        Err(refusal) => Ok((Err(refusal), true)),
    }
}

/// What an order gives out, whichever the controller is, and whether that stays as it was.
fn take_order(
    alloc: Global,
    controller: &mut AnyController,
    text: Vec<u8>,
    at: u64,
) -> Result<(Result<TakenBytes, Refusal>, bool), AllocError>
    ensures gives { IfOk result (λ taken. GivesOne at (Coming.Order text) controller.old
        taken.0 controller.new) }
    ensures same { IfOk result (λ taken. taken.1 ≡ true → controller.new ≡ controller.old) }
{
    match controller {
        AnyController::Master(master) => order_master(alloc, master, text.as_slice(), at),
        AnyController::Worker(worker) => order_worker(alloc, worker, text.as_slice(), at),
    }
}

/// What something that comes gives out, or why no step is made of it, and whether the controller
/// stays as it was.
fn take_one(
    alloc: Global,
    controller: &mut AnyController,
    coming: Coming,
    at: u64,
) -> Result<(Result<TakenBytes, Refusal>, bool), AllocError>
    ensures gives { IfOk result
        (λ taken. GivesOne at coming controller.old taken.0 controller.new) }
    ensures same { IfOk result (λ taken. taken.1 ≡ true → controller.new ≡ controller.old) }
{
    match coming {
        Coming::Message(message) => take_message(alloc, controller, message, at),
        Coming::Order(text) => take_order(alloc, controller, text, at),
        Coming::Neither(refusal) => Ok((Err(refusal), true)),
    }
}

/// What each of these gives out, one after the other, or why no step is made of it, and whether the
/// controller stays as it was.
fn take_each(
    alloc: Global,
    controller: &mut AnyController,
    all: Vec<Coming>,
    at: u64,
) -> Result<(Vec<Result<TakenBytes, Refusal>>, bool), AllocError>
    ensures gives { IfOk result
        (λ taken. Gives at all.items controller.old taken.0.items controller.new) }
    ensures same { IfOk result (λ taken. taken.1 ≡ true → controller.new ≡ controller.old) }
{
    let mut given = Vec::with_capacity(alloc, all.len())?;
    let mut is_same = true;
    for coming in all {
        let (taken, is_still) = take_one(alloc, controller, coming, at)?;
        given.push(taken)?;
        is_same &= is_still;
    }
    Ok((given, is_same))
}

/// The controller whose state bytes are the text of, and whether they are the text that was saved
/// last: then they aren't read again. Refuses as `controller_of` does.
fn controller_behind(
    alloc: Global,
    last: Option<SavedState>,
    bytes: &[u8],
) -> Result<(AnyController, bool), Refusal>
    ensures ok { IfOk result (λ found. IsReadAs any_state_read bytes.now (Ok found.0)) }
    ensures saved { IfOk result (λ found. found.1 ≡ true → bytes.now ≡ text_of found.0) }
    ensures refused { IfErr result (IsRefusalOf any_state_read bytes.now) }
{
    if let Some(saved) = last {
        if saved.text() == bytes {
            return Ok((saved.into_controller(), true));
        }
        drop(saved);
    }
    match controller_of(alloc, bytes) {
        Ok(controller) => Ok((controller, false)),
        Err(refusal) => Err(refusal),
    }
}

/// The same, where it is one that is addressed. Refuses as `controller_of` does, and else
/// `OtherName`.
fn addressed_controller(
    alloc: Global,
    last: Option<SavedState>,
    bytes: &[u8],
    to: Addressee<'_>,
) -> Result<(AnyController, bool), Refused>
    ensures ok { IfOk result (λ found. IsReadAs any_state_read bytes.now (Ok found.0)) }
    ensures addressed { IfOk result (λ found. is_addressed to.entry found.0 ≡ true) }
    ensures saved { IfOk result (λ found. found.1 ≡ true → bytes.now ≡ text_of found.0) }
    ensures refused { IfErr result (IsNotTakenFrom to.entry bytes.now) }
{
    match controller_behind(alloc, last, bytes) {
        Ok((controller, is_saved)) => {
            if to.is(&controller) {
                return Ok((controller, is_saved));
            }
            drop(controller);
            Err(Refused::OtherName)
        }
        Err(refusal) => Err(Refused::Core(refusal)),
    }
}

/// Whether none of these is a step that was made.
fn are_none(given: &[Result<TakenBytes, Refusal>]) -> bool
    ensures { result ≡ list_all is_err given.now }
{
    given.iter().all(|one| one.is_err())
}

/// What each of these gives out, one after the other, where bytes are the text of the controller's
/// state; the controller as it is then, beside the text of its state, unless no step was made at
/// all; and whether that is these bytes, which were saved last. Refuses as `addressed_controller`
/// does, and `Memory`.
fn take_from(
    alloc: Global,
    bytes: Vec<u8>,
    last: Option<SavedState>,
    to: Addressee<'_>,
    all: Vec<Coming>,
    at: u64,
) -> Result<(Vec<Result<TakenBytes, Refusal>>, Option<SavedState>, bool), Refused>
    ensures ok { IfOk result
        (λ taken. TakesFrom to.entry at bytes.items all.items taken.0.items taken.1) }
    ensures each { IfOk result (λ taken. length taken.0.items ≡ length all.items) }
    ensures held { IfOk result (λ taken. taken.2 ≡ true →
        IfSome taken.1 (λ c. bytes.items ≡ text_of c)) }
    ensures refused { IfErr result (IsNotTakenFrom to.entry bytes.items) }
{
    let (mut controller, is_saved) = addressed_controller(alloc, last, bytes.as_slice(), to)?;
    let (given, is_same) = match take_each(alloc, &mut controller, all, at) {
        Ok(taken) => taken,
        Err(AllocError) => {
            drop(controller);
            return Err(Refused::Core(Refusal::Memory));
        }
    };
    if is_saved && is_same {
        return Ok((given, Some(SavedState::with_text(bytes, controller)), true));
    }
    drop(bytes);
    if is_same && are_none(given.as_slice()) {
        drop(controller);
        return Ok((given, None, true));
    }
    match SavedState::of(alloc, controller) {
        Ok(saved) => Ok((given, Some(saved), false)),
        Err(AllocError) => Err(Refused::Core(Refusal::Memory)),
    }
}

/// Hands the controller that a keeper holds all that comes to it, one after the other, at a time in
/// seconds since 1970, and saves its state once, behind the last. Gives out of each what is replied
/// and the text that goes out, or why no step was made of it, which changes nothing: what an
/// order's text is refused for, or `Memory`. Beside them stands what was saved, for the next call:
/// where the keeper still holds the text of the last one, that isn't read again, and isn't written
/// again either where all steps left the controller as it was. Where no step was made at all
/// nothing is written. Refuses as `open_any` does; `OtherName` where the controller isn't one that
/// is addressed; `Memory` where it runs out for a text, and then nothing is changed; and
/// `SaveFailed`.
pub fn take_all<K: Keep>(
    alloc: Global,
    keep: &mut K,
    last: Option<SavedState>,
    to: Addressee<'_>,
    all: Vec<Coming>,
    at: u64,
) -> Result<(Vec<Result<TakenBytes, Refusal>>, Option<SavedState>), Refused>
    // Proved: All that comes to a controller with one save, messages and orders, comes to it one
    // after the other, each to the controller that the one before left, with a save behind the
    // last; of each its own is given out, in turn, and who sent it. Where the controller isn't one
    // that is addressed nothing is taken.
    // By `ok`, `each`.
    ensures ok { IfOk result (λ taken.
        TakesAll K.is_honest K.held to.entry at all.items taken.0.items
        taken.1 keep.old keep.new) }
    ensures each { IfOk result (λ taken. length taken.0.items ≡ length all.items) }
    // Proved: Where the state isn't loaded, is that of a controller that isn't addressed, or
    // memory runs out, what was held is held; where the save fails that or the text behind the
    // last step.
    // By `refused`, `place`, `honest`, `counted`.
    ensures honest { K.is_honest keep.new ≡ K.is_honest keep.old }
    ensures place { K.place keep.new ≡ K.place keep.old }
    ensures counted { K.count keep.old ≤ K.count keep.new }
    ensures refused { IfErr result (TakesNone K.is_honest K.held K.place K.count K.load_fails
        K.save_fails to.entry at all.items keep.old keep.new) }
{
    let bytes = match load_bytes(keep) {
        Ok(bytes) => bytes,
        Err(refused) => {
            drop(last);
            drop(all);
            return Err(refused);
        }
    };
    let (given, next, is_held) = match take_from(alloc, bytes, last, to, all, at) {
        Ok(taken) => taken,
        Err(refused) => return Err(refused),
    };
    let Some(saved) = next else {
        return Ok((given, None));
    };
    if is_held {
        return Ok((given, Some(saved)));
    }
    match save(keep, saved.text()) {
        Ok(()) => Ok((given, Some(saved))),
        Err(refused) => {
            drop(given);
            drop(saved);
            Err(refused)
        }
    }
}
