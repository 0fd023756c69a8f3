//! The command `world`.

ghost use Rattle.streams.specs.Ends.{Ends};
ghost use Rattle.streams.specs.Streams.{traffic};
ghost use Rattle.jdf_commands.specs.WorldCommand.Run.{IsOutput};
ghost use Rattle.world_script.specs.Script.{IsRefusalOf};

use crate::world_command::world_output::world_output;
use std::alloc::Global;
use std::io::{Read, Write};
use streams::{Command, Counted, Output, run_command};
use ticket_tree::Refusal;

/// The command `world`.
pub struct WorldCommand;

impl Command for WorldCommand {
    ghost is_output = { IsOutput };

    ghost is_refusal = { IsRefusalOf };

    fn output(alloc: Global, input: Vec<u8>) -> Result<Output, Refusal> {
        let text = world_output(alloc, input)?;
        Ok(Output {
            text,
            refused: false,
        })
    }
}

/// Reads a script, lets its events happen one after another, and writes a line for each answer and
/// the text of the ticket that the master shows at the end: what happens in one ticket with one
/// table of holders. Answers the exit status: 0, also where events were refused. Where it gives up,
/// it writes nothing, but for a front of that output where a write fails; it tells why in `faults`,
/// as far as that takes it, and answers the status of the fault: 1 where memory ran out, 3 where
/// the input was refused or has more bytes than `MAX_INPUT_BYTES`, 4 where a read or a write
/// failed.
pub fn run_world<R: Read, W: Write, F: Write>(
    alloc: Global,
    reader: &mut Counted<R>,
    writer: &mut Counted<W>,
    faults: &mut Counted<F>,
) -> u8
    // Proved: `world` writes, for a script, the answers of one ticket with one table, and that
    // ticket.
    // By `world_output::push_line`.
    ensures { Ends IsOutput IsRefusalOf (traffic R.remaining reader.old reader.new)
        (traffic W.contents writer.old writer.new)
        (traffic F.contents faults.old faults.new) result }
{
    run_command::<WorldCommand, R, W, F>(alloc, reader, writer, faults)
}
