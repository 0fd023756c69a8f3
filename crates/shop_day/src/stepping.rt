//! What comes of a step.

ghost use Rattle.std.specs.Prelude.{◌≡◌, is_some, true, IfOk, IfSome, OnErr};
ghost use Rattle.file_commands.specs.Step as steps;
ghost use Rattle.shop_day.specs.Done as done;
ghost use Rattle.shop_day.specs.Lines as lines;
ghost use Rattle.world.specs.Happening as happening;
ghost use Rattle.world_items.specs.Word.{word_of};
ghost use Rattle.world_items.specs.declared.stop.Stop.TheVariants.{Run};

use crate::outcome::Outcome;
use crate::sending::text_sent;
use controller::Reply;
use file_commands::{fault_of, step_output};
use keepers::Keep;
use master_core::Master;
use std::alloc::{AllocError, Global};
use stored_state::KeptSeat;
use streams::Output;
use ticket_tree::Refusal;
use worker_core::Worker;
use world::{Direct, Seats};
use world_items::{Answer, Event, Stop, What, Word};

/// The reply or the refusal that a word tells, if it tells one.
fn reply_in(word: Word) -> Option<Result<Reply, Refusal>>
    ensures some { IfSome result (λ reply. word ≡ word_of reply) }
    ensures any { done.IsReply word → is_some result ≡ true }
{
    match word {
        Word::Did(reply) => Some(Ok(reply)),
        Word::Refused(refusal) => Some(Err(refusal)),
        Word::Stopped | Word::Restarted | Word::NoMessage => None,
    }
}

/// What is written of a reply, and of the message of a number that was sent with it.
fn output_of<K: Keep>(
    alloc: Global,
    shop: &Seats<KeptSeat<Master, K>, KeptSeat<Worker, K>>,
    reply: Result<Reply, Refusal>,
    number: Option<u64>,
) -> Result<Output, AllocError>
    ensures text { IfOk result (λ output. output.text.items
        ≡ steps.step_lines reply (done.text_at shop.now.messages number)) }
    ensures status { IfOk result (λ output. output.refused ≡ steps.is_refused reply) }
{
    let text = text_sent(alloc, shop, number)?;
    match step_output(alloc, reply, &text) {
        Ok(output) => Ok(output),
        Err(_) => Err(AllocError),
    }
}

/// What came of a step that was answered so.
fn answer_outcome<K: Keep>(
    alloc: Global,
    shop: &Seats<KeptSeat<Master, K>, KeptSeat<Worker, K>>,
    answer: Answer,
) -> Result<Outcome, AllocError>
    requires { done.IsReply answer.word }
    ensures { IfOk result (done.IsOutcome (done.IsWritten answer shop.now.messages)
        lines.IsFailed Run) }
{
    match reply_in(answer.word) {
        Some(reply) => Ok(Outcome::Wrote(output_of(alloc, shop, reply, answer.number)?)),
        None => Err(AllocError),
    }
}

/// What comes of what happens to a controller at a time. Refuses where memory runs out for what is
/// written, once it has happened.
pub fn step_outcome<K: Keep>(
    alloc: Global,
    shop: &mut Seats<KeptSeat<Master, K>, KeptSeat<Worker, K>>,
    what: What,
    at: u64,
) -> Result<Outcome, AllocError>
    // Wants: a step.
    requires { done.IsReply (happening.answer_to (lines.event what at Run) shop.old).word }
    ensures done { IfOk result (done.StepsTo what at shop.old shop.new) }
    ensures happened { OnErr result
        (shop.new ≡ happening.after (lines.event what at Run) shop.old) }
{
    let event = Event {
        what,
        at,
        stop: Stop::Run,
    };
    match shop.step(&mut Direct, alloc, event) {
        Ok(answer) => answer_outcome(alloc, shop, answer),
        Err(refused) => Ok(Outcome::GaveUp(fault_of(refused))),
    }
}
