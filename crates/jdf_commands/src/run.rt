//! The calls of the program of a document.

ghost use Rattle.jdf_commands.specs.Calls.{EndsDocument};
ghost use Rattle.streams.specs.Streams.{traffic};

use crate::world_command::run_world;
use document_commands::{run_check, run_edit, run_explain};
use jdf_words::DocumentCall;
use std::alloc::Global;
use std::io::{Read, Write};
use streams::Counted;

/// Runs a call of a document, and writes what comes of it. Answers the exit status. `edit` and
/// `world` end as `run_edit` and `run_world` say, `check` as `run_check` says, and `explain` as
/// `run_explain` does. Where `check` can't read its input, what the system says of that stands
/// behind the refusal.
pub fn run_document<I: Read, W: Write, F: Write>(
    alloc: Global,
    call: &DocumentCall<'_>,
    reader: &mut Counted<I>,
    writer: &mut Counted<W>,
    faults: &mut Counted<F>,
) -> u8
    // Proved: A call of a document ends as its command does: `edit`, `world`, `check` or `explain`.
    ensures { EndsDocument call.now (traffic I.remaining reader.old reader.new)
        (traffic W.contents writer.old writer.new)
        (traffic F.contents faults.old faults.new) result }
{
    match call {
        DocumentCall::Edit => run_edit(alloc, reader, writer, faults),
        DocumentCall::World => run_world(alloc, reader, writer, faults),
        DocumentCall::Check { kind, all } => run_check(alloc, *kind, *all, reader, writer, faults),
        DocumentCall::Explain { number } => run_explain(alloc, number, writer, faults),
    }
}
