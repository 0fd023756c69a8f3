//! The command `edit`.

ghost use Rattle.streams.specs.Ends.{Ends};
ghost use Rattle.streams.specs.Streams.{traffic};
ghost use Rattle.document_commands.specs.EditCommand.Document.{IsRefusalOf};
ghost use Rattle.document_commands.specs.EditCommand.Run.{IsOutput};

use crate::edit_command::edit_output::edit_output;
use std::alloc::Global;
use std::io::{Read, Write};
use streams::{Command, Counted, Output, run_command};
use ticket_tree::Refusal;

/// The command `edit`.
pub struct Edit;

impl Command for Edit {
    ghost is_output = { IsOutput };

    ghost is_refusal = { IsRefusalOf };

    fn output(alloc: Global, input: Vec<u8>) -> Result<Output, Refusal> {
        edit_output(alloc, input)
    }
}

/// Reads a ticket and edits of it, does the edits, and writes a line for each and the text of the
/// ticket that they leave. Answers the exit status: 0 where all edits were done, 1 where one was
/// refused. Where it gives up, it writes nothing, but for a front of that output where a write
/// fails; it tells why in `faults`, as far as that takes it, and answers the status of the fault: 1
/// where memory ran out, 3 where the input was refused or has more bytes than `MAX_INPUT_BYTES`, 4
/// where a read or a write failed.
pub fn run_edit<R: Read, W: Write, F: Write>(
    alloc: Global,
    reader: &mut Counted<R>,
    writer: &mut Counted<W>,
    faults: &mut Counted<F>,
) -> u8
    // Proved: `edit` writes each edit's line and the ticket that they leave, or tells why not.
    ensures { Ends IsOutput IsRefusalOf (traffic R.remaining reader.old reader.new)
        (traffic W.contents writer.old writer.new)
        (traffic F.contents faults.old faults.new) result }
{
    run_command::<Edit, R, W, F>(alloc, reader, writer, faults)
}
