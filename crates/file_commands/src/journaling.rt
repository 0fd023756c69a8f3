//! The lines of steps that were saved.

ghost use Rattle.std.specs.Prelude.{◌≡◌, true, IfOk, IsOkAnd};
ghost use Rattle.journal.specs.Journal.{IsJournaled, IsWritten};
ghost use Rattle.journal.specs.Line.{who};
ghost use Rattle.file_commands.specs.Journaled.{IsMessageLine, IsOrderLine};
ghost use Rattle.stored_state.specs.Addressee.{name_of};
ghost use Rattle.stored_state.specs.Opened.{controller_in};

use controller::Reply;
use jmf_message::decode;
use journal::{Journal, message_word, order_word, step_line};
use keepers::Keep;
use std::alloc::{AllocError, Global};
use stored_state::AnyKept;
use ticket_tree::{Id, Refusal};

/// The name of the controller.
fn name_in<K: Keep>(opened: &AnyKept<K>) -> &Id
    ensures { result.now ≡ name_of (controller_in opened.now) }
{
    match opened {
        AnyKept::Master(kept) => kept.controller().name(),
        AnyKept::Worker(kept) => kept.controller().name(),
    }
}

/// The line of an order's step at the controller of a name, by this one. Refuses what the order's
/// bytes are refused for, and `Memory`.
fn order_line(
    alloc: Global,
    name: &Id,
    by: Option<&str>,
    input: &[u8],
    reply: Reply,
    at: u64,
) -> Result<Vec<u8>, Refusal>
    ensures { IfOk result (λ line. IsOrderLine (who by.entry) name.now at
        input.now reply line.items) }
{
    let what = order_word(alloc, input)?;
    Ok(step_line(alloc, name, by, what.as_str(), reply, at)?)
}

/// The line of a message's step at the controller of a name. Refuses as `decode`.
fn message_line(
    alloc: Global,
    name: &Id,
    bytes: &[u8],
    reply: Reply,
    at: u64,
) -> Result<Vec<u8>, Refusal>
    ensures { IfOk result (λ line. IsMessageLine name.now at bytes.now reply line.items) }
{
    let message = decode(alloc, bytes)?;
    let sender = message.sender.as_str();
    let what = message_word(&message.body);
    Ok(step_line(alloc, name, Some(sender), what, reply, at)?)
}

/// Appends a line that was made; where it wasn't, the journal misses it.
fn append<J: Journal>(journal: &mut J, line: Result<Vec<u8>, Refusal>)
    ensures lines { J.is_honest journal.old ≡ true → IsWritten J.held J.is_missed
        (λ made. IsOkAnd line (λ l. made ≡ l.items)) journal.old journal.new }
    ensures honest { J.is_honest journal.new ≡ J.is_honest journal.old }
{
    match line {
        Ok(line) => {
            journal.append(line.as_slice());
        }
        Err(_) => journal.miss(),
    }
}

/// Appends the line of an order's step that was saved, if a journal is wanted and the controller
/// didn't refuse the order.
pub fn journal_order<K: Keep, J: Journal>(
    alloc: Global,
    journal: &mut J,
    opened: &AnyKept<K>,
    by: Option<&str>,
    input: &[u8],
    reply: &Result<Reply, Refusal>,
    at: u64,
)
    ensures { J.is_honest journal.old ≡ true → IsJournaled J.held J.is_missed
        (IsOrderLine (who by.entry) (name_of (controller_in opened.now)) at
        input.now) reply.now journal.old journal.new }
{
    if !journal.is_wanted() {
        return;
    }
    if let Ok(reply) = reply {
        append(
            journal,
            order_line(alloc, name_in(opened), by, input, *reply, at),
        );
    }
}

/// The same of a message's step.
pub fn journal_message<K: Keep, J: Journal>(
    alloc: Global,
    journal: &mut J,
    opened: &AnyKept<K>,
    bytes: &[u8],
    reply: &Result<Reply, Refusal>,
    at: u64,
)
    ensures { J.is_honest journal.old ≡ true → IsJournaled J.held J.is_missed
        (IsMessageLine (name_of (controller_in opened.now)) at bytes.now) reply.now journal.old
        journal.new }
{
    if !journal.is_wanted() {
        return;
    }
    if let Ok(reply) = reply {
        append(
            journal,
            message_line(alloc, name_in(opened), bytes, *reply, at),
        );
    }
}
