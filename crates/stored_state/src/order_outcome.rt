//! What is told of an order.

ghost use Rattle.std.specs.Prelude.{◌≡◌, Err, IfOk, OnErr, OnOk};
ghost use Rattle.stored_state.specs.OrderOutcome as told;

use controller::{Done, Outcome};
use std::alloc::AllocError;
use ticket_tree::Refusal;

/// What is told of an order that was answered so. Where memory ran out no step was made.
pub(crate) fn outcome_of_order(done: Result<Done, Refusal>) -> Result<Outcome, AllocError>
    ensures told { IfOk result (λ outcome. outcome ≡ told.outcome_of_order done) }
    ensures memory { OnOk result (¬ (done ≡ Err Refusal.Memory)) }
    ensures err { OnErr result (done ≡ Err Refusal.Memory) }
{
    match done {
        Ok(done) => Ok(Outcome {
            reply: Ok(done.reply),
            answer: done.message,
        }),
        Err(refusal) => {
            if refusal == Refusal::Memory {
                return Err(AllocError);
            }
            Ok(Outcome {
                reply: Err(refusal),
                answer: None,
            })
        }
    }
}
