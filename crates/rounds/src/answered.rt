ghost use Rattle.std.specs.Prelude.{◌≡◌, Err};
ghost use Rattle.http_edge.specs.Exchange as exchanges;
ghost use Rattle.http_message.specs.Texts.{answer_of};
ghost use Rattle.rounds.specs.Line as line;
ghost use Rattle.rounds.specs.Line.{IsAnswered};

use crate::receipt::Receipt;
use crate::recipient::{Recipient, served_of};
use crate::waiting::WaitingClient;
use controller::Reply;
use http_edge::Served;
use http_message::served_bytes;
use peers::{Client, OwedClient};
use std::alloc::Global;
use stored_state::TakenBytes;
use streams::Refused;
use ticket_items::{Id, Refusal};

/// A client who has the response to a request.
#[derive(Drop)]
pub struct AnsweredClient<S> {
    /// Under which number the client is kept.
    pub key: usize,
    /// The client; none where memory ran out for the response, and then it is closed.
    pub client: Option<Client<S>>,
    /// What is told of the request.
    pub told: Served,
    /// What its message was taken as and from whom, if it was taken.
    pub taken: Option<Receipt>,
}

/// What a message from this sender was taken as, if it was.
fn reply_from(sender: Option<Id>, reply: Result<Reply, Refusal>) -> Option<Receipt>
    ensures { result ≡ line.reply_from sender reply }
{
    match (sender, reply) {
        (Some(sender), Ok(reply)) => Some(Receipt { reply, sender }),
        _ => None,
    }
}

/// What a message was taken as and from whom, if it was.
fn sender_of(came: Result<TakenBytes, Refused>) -> Option<Receipt>
    ensures { result ≡ line.sender_of came }
{
    match came {
        Ok(taken) => {
            let TakenBytes {
                sender,
                reply,
                answer,
            } = taken;
            drop(answer);
            reply_from(sender, reply)
        }
        Err(_) => None,
    }
}

/// The text of an answer, if there is one, or why there is no step.
fn answer_in(came: &Result<TakenBytes, Refused>) -> Result<Option<&[u8]>, Refused>
    ensures { answer_of result ≡ exchanges.answer_in came.now }
{
    match came {
        Ok(taken) => match &taken.answer {
            Some(text) => Ok(Some(text.as_slice())),
            None => Ok(None),
        },
        Err(refused) => Err(*refused),
    }
}

impl<S: Drop> Recipient<S> for AnsweredClient<S> {
    ghost use Rattle.rounds.specs.Line.{HasAnswer};

    ghost is_told = { HasAnswer };

    fn tell(
        alloc: Global,
        waiting: WaitingClient<S>,
        came: Result<TakenBytes, Refused>,
        now: u64,
    ) -> AnsweredClient<S>
        ensures { HasAnswer now came waiting result }
    {
        let WaitingClient { key, asked } = waiting;
        let client = match served_bytes(alloc, &answer_in(&came)) {
            Ok(response) => asked.answer(response.as_slice(), now).ok(),
            Err(_) => {
                drop(asked);
                None
            }
        };
        AnsweredClient {
            key,
            client,
            told: served_of(&came),
            taken: sender_of(came),
        }
    }
}

/// A client with the response to a request that is refused.
pub fn refuse<S: Drop>(
    alloc: Global,
    key: usize,
    asked: OwedClient<S>,
    refused: Refused,
    now: u64,
) -> AnsweredClient<S>
    ensures { IsAnswered now (Err refused) key asked result }
{
    AnsweredClient::tell(alloc, WaitingClient { key, asked }, Err(refused), now)
}
