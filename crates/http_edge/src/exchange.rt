//! From a request to the step of a controller.

ghost use Rattle.std.specs.Prelude.{◌≡◌, ◌≢◌, ◌⊎◌, ◌+◌, ◌≤◌, IfErr, IfOk, OnOk};
ghost use Rattle.std.specs.Option.{option_map};
ghost use Rattle.serde_json.specs.Written.{compact_text};
ghost use Rattle.http_message.specs.Reading.{IsUnfailed};
ghost use Rattle.http_edge.specs.Exchange.{IsUnread, Steps, StepsNot};
ghost use Rattle.stored_state.specs.Step.{TextStep, in_text};
ghost use Rattle.streams.specs.Streams.{traffic};
ghost use Rattle.streams.specs.declared.refused.Refused.TheVariants.{ReadFailed};

use http_message::{MAX_READS, read_request};
use keepers::Keep;
use std::alloc::Global;
use std::io::Read;
use stored_state::{Kept, StoredController, TakenBytes};
use streams::{Counted, Refused};

/// Reads a request, and hands the message that it carries to the controller, at a time in seconds
/// since 1970. Refuses what the request is refused for, and a failed read, which change nothing;
/// else as `Kept::take` does.
pub(crate) fn exchange<R: Read, C: StoredController, K: Keep>(
    alloc: Global,
    reader: &mut Counted<R>,
    kept: &mut Kept<C, K>,
    at: u64,
) -> Result<TakenBytes, Refused>
    ensures ok { IfOk result (λ given. (step : TextStep C)
        × Steps K.is_honest K.held (λ c. compact_text (C.state_data c)) C.state_read
        (λ m. in_text (C.take_step m at kept.old.controller))
        (R.remaining reader.old.inner) kept.old kept.new step
        × (given.reply ≡ step.reply)
        × (option_map (λ b. b.items) given.answer ≡ step.sent)) }
    ensures unfailed { OnOk result (IsUnfailed (traffic R.remaining reader.old reader.new)) }
    ensures refused { IfErr result (λ e. IsUnread reader.old.calls
        (traffic R.remaining reader.old reader.new) kept.old kept.new e
        ⊎ ((e ≢ ReadFailed) × IsUnfailed (traffic R.remaining reader.old reader.new)
        × StepsNot K.is_honest K.held K.count K.save_fails (λ c. compact_text (C.state_data c))
        (λ m. in_text (C.take_step m at kept.old.controller))
        (R.remaining reader.old.inner) kept.old kept.new e)) }
    ensures bound { reader.new.calls ≤ reader.old.calls + MAX_READS }
{
    let body = match read_request(alloc, reader) {
        Ok(request) => request.body,
        Err(refused) => return Err(refused),
    };
    match kept.take(alloc, body.as_slice(), at) {
        Ok(taken) => Ok(taken),
        Err(refused) => Err(refused),
    }
}
