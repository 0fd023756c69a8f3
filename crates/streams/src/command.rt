//! A command, from its input to its exit status.

ghost use Rattle.std.specs.Prelude.{◌≡◌, ℕ, Bool, List, IfOk, IfErr};
ghost use Rattle.ticket_items.specs.declared.refusal.Refusal.{Refusal as RefusalSeen};
ghost use Rattle.streams.specs.Ends.{Ends, GivesOut, GivesUp, IsFaultOf, IsOutputOf, Tells};
ghost use Rattle.streams.specs.Fault.{fault_status};
ghost use Rattle.streams.specs.Streams.{traffic};

use crate::counted::Counted;
use crate::fault::Fault;
use crate::input::read_input;
use crate::output::write_bytes;
use crate::told::tell;
use std::alloc::Global;
use std::io::{Read, Write};
use ticket_items::Refusal;

/// What a command writes.
#[derive(Drop)]
pub struct Output {
    pub text: Vec<u8>,
    /// Whether something that was asked for was refused, which the exit status 1 tells.
    pub refused: bool,
}

/// A command that makes its output of its whole input.
pub trait Command {
    /// What is written for an input, and whether something was refused.
    ghost is_output: { List ℕ → List ℕ → Bool → Type 0 };

    /// Why an input is refused.
    ghost is_refusal: { List ℕ → RefusalSeen → Type 0 };

    /// What is written for an input, or why it is refused.
    fn output(alloc: Global, input: Vec<u8>) -> Result<Output, Refusal>
        ensures done { IfOk result (λ o. is_output input.items o.text.items o.refused) }
        ensures refused { IfErr result (is_refusal input.items) };
}

/// Tells a fault, as far as `faults` takes it. Answers the fault's exit status.
fn give_up<F: Write>(fault: Fault, faults: &mut Counted<F>) -> u8
    ensures errors { Tells fault (traffic F.contents faults.old faults.new) }
    ensures status { result ≡ fault_status fault }
{
    tell(faults, &fault);
    fault.status()
}

/// Writes an output. Answers the exit status: 0, or 1 where something that was asked for was
/// refused. Where a write fails, which it tells in `faults`, that of the fault.
fn give_out<W: Write, F: Write>(
    output: Output,
    writer: &mut Counted<W>,
    faults: &mut Counted<F>,
) -> u8
    ensures { GivesOut output.text.items output.refused (traffic W.contents writer.old writer.new)
        (traffic F.contents faults.old faults.new) result }
{
    match write_bytes(writer, output.text.as_slice()) {
        Ok(()) => u8::from(output.refused),
        Err(fault) => give_up(fault, faults),
    }
}

/// Writes an output that was made, or tells why there is none, as far as `faults` takes it. Answers
/// the exit status: 0, or 1 where something that was asked for was refused; of a fault, a write
/// that failed among them, its own.
pub fn finish<W: Write, F: Write>(
    made: Result<Output, Fault>,
    writer: &mut Counted<W>,
    faults: &mut Counted<F>,
) -> u8
    ensures done { IfOk made (λ output. GivesOut output.text.items output.refused
        (traffic W.contents writer.old writer.new)
        (traffic F.contents faults.old faults.new) result) }
    ensures gives_up { IfErr made (λ fault. GivesUp fault
        (traffic W.contents writer.old writer.new)
        (traffic F.contents faults.old faults.new) result) }
{
    match made {
        Ok(output) => give_out(output, writer, faults),
        Err(fault) => give_up(fault, faults),
    }
}

/// Reads the input of a command to its end, and makes its output. Refuses as `Input` what the
/// command refuses, `TooLarge` more bytes than `MAX_INPUT_BYTES`, and `Memory`; as `Device`
/// `ReadFailed`.
pub fn output_of<C: Command, R: Read>(
    alloc: Global,
    reader: &mut Counted<R>,
) -> Result<Output, Fault>
    // Proved: A command's output is made of the whole input, and either written or given up.
    // By `done`, `refused`; `finish`: `done`, `gives_up`; `Command::output`: `done`, `refused`.
    ensures done { IfOk result (λ o. IsOutputOf C.is_output
        (traffic R.remaining reader.old reader.new)
        o.text.items o.refused) }
    ensures refused { IfErr result
        (IsFaultOf C.is_refusal (traffic R.remaining reader.old reader.new)) }
{
    let input = read_input(alloc, reader)?;
    Ok(C::output(alloc, input)?)
}

/// Reads the input of a command to its end and writes what the command makes of it. Answers the
/// exit status: 0, or 1 where something that was asked for was refused. Where it gives up, it
/// writes nothing, but for a front of that output where a write fails; it tells why in `faults`, as
/// far as that takes it, and answers the status of the fault: 1 where memory ran out, 3 where the
/// input was refused or has more bytes than `MAX_INPUT_BYTES`, 4 where a read or a write failed.
pub fn run_command<C: Command, R: Read, W: Write, F: Write>(
    alloc: Global,
    reader: &mut Counted<R>,
    writer: &mut Counted<W>,
    faults: &mut Counted<F>,
) -> u8
    // Proved: All of a command's output was written and nothing told, with status 1 where
    // something was refused, else 0; or one fault was told, as far as that could be written, and
    // the status is the fault's: then nothing was written, or where a write failed a front of the
    // output.
    ensures { Ends C.is_output C.is_refusal (traffic R.remaining reader.old reader.new)
        (traffic W.contents writer.old writer.new)
        (traffic F.contents faults.old faults.new) result }
{
    finish(output_of::<C, R>(alloc, reader), writer, faults)
}
