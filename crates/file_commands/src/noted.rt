ghost use Rattle.std.specs.Prelude.{◌≡◌, [], IfOk, IfErr};
ghost use Rattle.file_commands.specs.Notes.{GivesOutNoting};
ghost use Rattle.streams.specs.Ends.{GivesUp};
ghost use Rattle.streams.specs.Streams.{traffic};

use std::alloc::Global;
use std::io::Write;
use streams::{Counted, Fault, Output, finish, write_bytes};

/// What a call writes, and what it notes on standard error.
#[derive(Drop)]
pub struct OutputWithNotes {
    pub output: Output,
    /// Lines.
    pub notes: Vec<u8>,
}

impl OutputWithNotes {
    /// An output with no notes.
    pub fn without_notes(alloc: Global, output: Output) -> OutputWithNotes
        // Proved: An output without notes is that output, and has none.
        // By `output`, `notes`.
        ensures output { result.output ≡ output }
        ensures notes { result.notes.items ≡ [] }
    {
        OutputWithNotes {
            output,
            notes: Vec::new(alloc),
        }
    }
}

/// Writes an output that was made, and then its notes in `faults`, as far as that takes them; or
/// tells why there is none. Answers the exit status, to which the notes do nothing.
pub fn finish_noting<W: Write, F: Write>(
    made: Result<OutputWithNotes, Fault>,
    writer: &mut Counted<W>,
    faults: &mut Counted<F>,
) -> u8
    // Proved: Notes are told behind an output, or a front of them where a write failed, and do
    // nothing to the status.
    // By `done`, `gives_up`.
    ensures done { IfOk made (λ noted. GivesOutNoting noted.output.text.items
        noted.output.refused noted.notes.items (traffic W.contents writer.old writer.new)
        (traffic F.contents faults.old faults.new) result) }
    ensures gives_up { IfErr made (λ fault. GivesUp fault
        (traffic W.contents writer.old writer.new)
        (traffic F.contents faults.old faults.new) result) }
{
    match made {
        Ok(OutputWithNotes { output, notes }) => {
            let status = finish(Ok(output), writer, faults);
            let _ = write_bytes(faults, notes.as_slice());
            status
        }
        Err(fault) => finish(Err(fault), writer, faults),
    }
}
