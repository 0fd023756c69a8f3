//! The edits of a document, one after another, and what is written of them.

ghost use Rattle.std.specs.Prelude.{◌≡◌, ◌||◌, ◌++◌, is_some, IfErr, IfOk, OnOk, Ok};
ghost use Rattle.std.specs.Result.{result_err};
ghost use Rattle.document_commands.specs.EditCommand.Run as run;

use std::alloc::{AllocError, Global};
use ticket_tree::{Edit, Refusal, Ticket};

/// The line of an edit that was done.
const EDITED: &str = "Edited\n";

/// Appends an edit's line.
fn push_line(text: &mut Vec<u8>, outcome: &Result<(), Refusal>) -> Result<(), AllocError>
    ensures { OnOk result (text.new.items
        ≡ text.old.items ++ run.edit_line (result_err outcome.now)) }
{
    match outcome {
        Ok(()) => text.extend_from_slice(EDITED.as_bytes()),
        Err(refusal) => text.extend_from_slice(refusal.line().as_bytes()),
    }
}

/// Does an edit, and answers its outcome.
fn apply_edit(alloc: Global, ticket: &mut Ticket, edit: Edit, at: u64) -> Result<(), Refusal>
    ensures outcome { run.IsOutcome edit ticket.old (result_err result) }
    ensures after { ticket.new ≡ run.after (result_err result) edit at ticket.old }
{
    match ticket.apply(alloc, edit, at) {
        Ok(()) => Ok(()),
        Err(refusal) => Err(refusal),
    }
}

/// Whether an edit was refused, now or before.
fn is_refused(before: bool, outcome: &Result<(), Refusal>) -> bool
    ensures { result ≡ (before || is_some (result_err outcome.now)) }
{
    before || outcome.is_err()
}

/// Does the edits in turn and appends the line of each. Answers whether one was refused. `Memory`
/// is answered where there is none for an edit or for its line, and then the text is of no use.
pub fn run_edits(
    alloc: Global,
    ticket: &mut Ticket,
    at: u64,
    edits: Vec<Edit>,
    text: &mut Vec<u8>,
) -> Result<bool, Refusal>
    ensures done { IfOk result (run.IsRun ticket.old at
        edits.items text.old.items text.new.items ticket.new) }
    ensures memory { IfErr result (λ e. e ≡ Refusal.Memory) }
{
    let mut refused = false;
    for edit in edits {
        let outcome = apply_edit(alloc, ticket, edit, at);
        push_line(text, &outcome)?;
        refused = is_refused(refused, &outcome);
    }
    Ok(refused)
}
