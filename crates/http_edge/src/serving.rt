//! From a request to its response.

ghost use Rattle.std.specs.Prelude.{◌≡◌, ◌+◌, ◌≤◌, IfOk, IsErrOf};
ghost use Rattle.serde_json.specs.Written.{compact_text};
ghost use Rattle.stored_state.specs.Step.{in_text};
ghost use Rattle.http_edge.specs.Exchange as exchanges;
ghost use Rattle.http_edge.specs.Exchange.{Serves, ServesFront, ServesNone};
ghost use Rattle.http_edge.specs.declared.edge_fault.EdgeFault.TheVariants.{ReadFailed};
ghost use Rattle.http_edge.specs.declared.edge_fault.EdgeFault.TheVariants.{WriteFailed};
ghost use Rattle.streams.specs.Streams.{traffic};

use crate::answering::{answer_refusal, answer_step};
use crate::edge_fault::EdgeFault;
use crate::exchange::exchange;
use crate::served::Served;
use http_message::MAX_READS;
use keepers::Keep;
use std::alloc::Global;
use std::io::{Read, Write};
use stored_state::{Kept, StoredController};
use streams::{Counted, Refused};

/// Whether a read of the request failed.
fn is_unread(refused: &Refused) -> bool
    ensures { result ≡ exchanges.is_unread refused.now }
{
    match refused {
        Refused::ReadFailed => true,
        _ => false,
    }
}

/// Serves one request over HTTP/1.1 (RFC 9112): reads it, hands the message that it carries to the
/// controller, at a time in seconds since 1970, and writes the response once the step is saved,
/// from when on it takes no memory. The response says that the connection is closed behind it,
/// which is the caller's to do. Gives up with `ReadFailed` where a read failed or `MAX_READS` were
/// made, and with `WriteFailed` where a write failed, took no byte or was interrupted. What the
/// request, its message or its save is refused for is told by the response, whose statuses are our
/// own.
///
/// It is `read_request`, `Kept::take` and `respond` in a row.
pub fn serve_one<R: Read, W: Write, C: StoredController, K: Keep>(
    alloc: Global,
    reader: &mut Counted<R>,
    writer: &mut Counted<W>,
    kept: &mut Kept<C, K>,
    at: u64,
) -> Result<Served, EdgeFault>
    // Proved: No read failed, and the response to what came of a request is written: one step of
    // the message that it carries, which is saved, or why there is none.
    // Proved: Where no body is read, nothing is changed; where its body gives no step, that leaves
    // what it does in `Kept::take`; while the controller is stale that is told before anything of
    // the body, and nothing is changed.
    // By `ok`, `unwritten`.
    // Proved: What is told of a request is its response's status, and the refusal that was met.
    ensures ok { IfOk result (Serves K.is_honest K.held K.count K.save_fails
        (λ c. compact_text (C.state_data c)) C.state_read
        (λ m. in_text (C.take_step m at kept.old.controller))
        (traffic R.remaining reader.old reader.new) kept.old kept.new
        (traffic W.contents writer.old writer.new)) }
    // Proved: Where a read failed or 2,000,000 were made, nothing is stepped or written.
    ensures unread { IsErrOf result ReadFailed → ServesNone reader.old.calls
        (traffic R.remaining reader.old reader.new) (traffic W.contents writer.old writer.new)
        kept.old kept.new }
    // Proved: Where a write failed, a front of the response is written, and what came of the
    // request is the same.
    ensures unwritten { IsErrOf result WriteFailed → ServesFront K.is_honest K.held K.count
        K.save_fails (λ c. compact_text (C.state_data c)) C.state_read
        (λ m. in_text (C.take_step m at kept.old.controller))
        (traffic R.remaining reader.old reader.new) kept.old kept.new
        (traffic W.contents writer.old writer.new) }
    // Proved: At most 2,000,000 reads are made.
    ensures bound { reader.new.calls ≤ reader.old.calls + MAX_READS }
{
    match exchange(alloc, reader, kept, at) {
        Ok(taken) => answer_step(writer, &taken),
        Err(refused) => {
            if is_unread(&refused) {
                return Err(EdgeFault::ReadFailed);
            }
            answer_refusal(writer, &refused)
        }
    }
}
