ghost use Rattle.std.specs.Prelude.{◌≡◌, ℕ, Result};
ghost use Rattle.http_edge.specs.Exchange as exchanges;
ghost use Rattle.stored_state.specs.declared.taken_bytes.TakenBytes.{TakenBytes};
ghost use Rattle.streams.specs.declared.refused.Refused.{Refused};
ghost use Rattle.rounds.specs.declared.waiting.WaitingClient.{WaitingClient};

use crate::waiting::WaitingClient;
use controller::Reply;
use http_edge::Served;
use http_message::status_of;
use std::alloc::Global;
use stored_state::TakenBytes;
use streams::Refused;
use ticket_items::Refusal;

/// One who waited for what comes of an errand, and was told it (our own): who sent a message, or
/// who gave an order.
pub trait Recipient<S>: Drop {
    /// Whether who waited is told so, at a moment, what came.
    ghost is_told: { ℕ → Result TakenBytes Refused → WaitingClient S → Self → Type 0 };

    /// Who waited, with the response at this moment, in milliseconds, to what came.
    fn tell(
        alloc: Global,
        waiting: WaitingClient<S>,
        came: Result<TakenBytes, Refused>,
        now: u64,
    ) -> Self
        ensures { is_told now came waiting result };
}

/// What is told of a message that was taken so.
fn told_of_reply(reply: Result<Reply, Refusal>) -> Option<Refused>
    ensures { result ≡ exchanges.refusal_in reply }
{
    match reply {
        Ok(_) => None,
        Err(refusal) => Some(Refused::Core(refusal)),
    }
}

/// What is told of a request of which this came.
pub(crate) fn served_of(came: &Result<TakenBytes, Refused>) -> Served
    ensures { result ≡ exchanges.served_of came.now }
{
    match came {
        Ok(taken) => Served {
            status: 200,
            refusal: told_of_reply(taken.reply),
        },
        Err(refused) => Served {
            status: status_of(*refused).as_u16(),
            refusal: Some(*refused),
        },
    }
}
