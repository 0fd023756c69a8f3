//! Those who gave orders, and what they are answered.

ghost use Rattle.std.specs.Prelude.{◌≡◌, string_bytes, IfOk, IfSome};
ghost use Rattle.http_message.specs.Texts.{served_text};
ghost use Rattle.rounds.specs.Line.{with_response};
ghost use Rattle.rounds.specs.Orders as orders;

use crate::recipient::{Recipient, served_of};
use crate::waiting::WaitingClient;
use controller::Reply;
use http_edge::Served;
use http_message::{refusal_body, served_bytes};
use peers::{Client, OwedClient};
use std::alloc::{AllocError, Global};
use stored_state::TakenBytes;
use streams::Refused;
use ticket_items::{Refusal, SpawnId};

/// One who gave an order and has the response.
#[derive(Drop)]
pub struct AnsweredOperator<S> {
    /// Under which number the client is kept.
    pub key: usize,
    /// The client; none where memory ran out for the response, and then it is closed.
    pub client: Option<Client<S>>,
    /// What is told of the request.
    pub told: Served,
    /// What the controller replied, unless it refused the order or made no step.
    pub reply: Option<Reply>,
}

/// What tells a word, and beside it a spawn if there is one, as JSON.
fn word_body(alloc: Global, word: &str, spawn: Option<SpawnId>) -> Result<String, AllocError>
    ensures { IfOk result (λ body. string_bytes body ≡ orders.word_body word.now spawn) }
{
    match spawn {
        Some(spawn) => {
            let number = spawn.number();
            format!(in alloc; "{{\"Reply\":\"{word}\",\"SpawnID\":\"S{number}\"}}")
        }
        None => format!(in alloc; "{{\"Reply\":\"{word}\"}}"),
    }
}

/// What tells a refusal, and the spawn that holds what an order would change, as JSON.
fn held_body(alloc: Global, name: &str, refused: u16, holder: SpawnId) -> Result<String, AllocError>
    ensures { IfOk result (λ body. string_bytes body ≡ orders.held_body name.now refused holder) }
{
    let spawn = holder.number();
    format!(in alloc; "{{\"Name\":\"{name}\",\"Refused\":{refused},\"SpawnID\":\"S{spawn}\"}}")
}

/// What tells why a controller refused an order, as JSON.
fn refused_body(alloc: Global, refusal: &Refusal) -> Result<String, AllocError>
    ensures { IfOk result (λ body. string_bytes body ≡ orders.refused_body refusal.now) }
{
    match refusal.holder() {
        Some(holder) => held_body(alloc, refusal.name(), refusal.number(), holder),
        None => refusal_body(alloc, &Refused::Core(*refusal)),
    }
}

/// What tells what a controller replied to an order, or why it refused that, as JSON.
fn order_body(alloc: Global, reply: &Result<Reply, Refusal>) -> Result<String, AllocError>
    ensures { IfOk result (λ body. string_bytes body ≡ orders.order_body reply.now) }
{
    match reply {
        Ok(reply) => word_body(alloc, reply.word(), reply.spawn()),
        Err(refusal) => refused_body(alloc, refusal),
    }
}

/// The response to an order of which this came.
fn reply_bytes(alloc: Global, came: &Result<TakenBytes, Refused>) -> Result<Vec<u8>, AllocError>
    ensures { IfOk result (λ text. text.items ≡ served_text (orders.answer_to came.now)) }
{
    match came {
        Ok(taken) => {
            let body = order_body(alloc, &taken.reply)?;
            served_bytes(alloc, &Ok(Some(body.as_bytes())))
        }
        Err(refused) => served_bytes(alloc, &Err(*refused)),
    }
}

/// What the controller replied, if it made the step and took the order.
fn reply_to(came: &Result<TakenBytes, Refused>) -> Option<Reply>
    ensures { result ≡ orders.reply_to came.now }
{
    match came {
        Ok(taken) => taken.reply.ok(),
        Err(_) => None,
    }
}

/// One who gave an order, with the response to what came of it.
fn answer<S: Drop>(
    alloc: Global,
    asked: OwedClient<S>,
    came: &Result<TakenBytes, Refused>,
    now: u64,
) -> Option<Client<S>>
    ensures { IfSome result
        (λ c. c ≡ with_response (served_text (orders.answer_to came.now)) now asked) }
{
    match reply_bytes(alloc, came) {
        Ok(response) => asked.answer(response.as_slice(), now).ok(),
        Err(_) => {
            drop(asked);
            None
        }
    }
}

impl<S: Drop> Recipient<S> for AnsweredOperator<S> {
    ghost use Rattle.rounds.specs.Orders.{HasReply};

    ghost is_told = { HasReply };

    fn tell(
        alloc: Global,
        waiting: WaitingClient<S>,
        came: Result<TakenBytes, Refused>,
        now: u64,
    ) -> AnsweredOperator<S>
        // Proved: Each who gave an order over the local socket has, under its own number, the
        // response to what came of its own order: a 200 that tells the reply and its spawn, or why
        // the controller refused the order and, of 12, the spawn that holds. What is told of it
        // and the reply are those of the same step.
        // By `answer_all`: `steps`, `place`; `refuse_errands`, `Recipient::tell`.
        ensures { HasReply now came waiting result }
    {
        let WaitingClient { key, asked } = waiting;
        AnsweredOperator {
            key,
            client: answer(alloc, asked, &came, now),
            told: served_of(&came),
            reply: reply_to(&came),
        }
    }
}
