//! The command, from its words to its exit status.

ghost use Rattle.std.specs.Prelude.{◌≡◌, IfErr, IfOk};
ghost use Rattle.std.specs.Option.{option_map};
ghost use Rattle.streams.specs.Ends.{IsFaultOf, IsOutputOf};
ghost use Rattle.streams.specs.Streams.{traffic};
ghost use Rattle.document_commands.specs.CheckCommand.Run as runs;
ghost use Rattle.document_commands.specs.Caused.{EndsWithCaused};
ghost use Rattle.document_commands.specs.CheckCommand.Run.{EndsCheck};
ghost use Rattle.document_commands.specs.CheckCommand.Verdict.{IsUnchecked, IsVerdict};
ghost use Rattle.document_commands.specs.Told.{TellsText};

use crate::caused::{CausedFault, give_up_caused};
use crate::check_command::kinds::kind_said;
use crate::check_command::verdict::verdict_of;
use crate::told::tell_text;
use fault_finder::Kind;
use std::alloc::Global;
use std::io::{Read, Write};
use streams::{Counted, Fault, Output, Refused, finish, read_input};

/// The exit status for a word that names no kind.
const NO_KIND: u8 = 2;

/// What is told of a word that names no kind.
const NO_KIND_LINE: &str =
    "error: KIND is one of ticket, edits, order, message, script, opening and state\n";

/// Tells that a word names no kind, as far as `faults` takes it. Answers `NO_KIND`.
fn tell_no_kind<F: Write>(faults: &mut Counted<F>) -> u8
    ensures errors { TellsText runs.no_kind_line (traffic F.contents faults.old faults.new) }
    ensures status { result ≡ NO_KIND }
{
    tell_text(faults, NO_KIND_LINE);
    NO_KIND
}

/// What is told of the input, of the kind that is said.
fn check_output<R: Read>(
    alloc: Global,
    said: Option<Kind>,
    all: bool,
    reader: &mut Counted<R>,
) -> Result<Output, Fault>
    ensures done { IfOk result (λ o. IsOutputOf (IsVerdict said all)
        (traffic R.remaining reader.old reader.new) o.text.items o.refused) }
    ensures refused { IfErr result
        (IsFaultOf IsUnchecked (traffic R.remaining reader.old reader.new)) }
{
    let input = read_input(alloc, reader)?;
    Ok(verdict_of(alloc, said, all, input)?)
}

/// A fault of the input, with where that comes from where a read failed.
fn input_fault(alloc: Global, fault: Fault) -> CausedFault
    ensures { result.fault ≡ fault }
{
    match fault {
        Fault::Device(Refused::ReadFailed) => CausedFault::at(alloc, fault, "standard input"),
        _ => CausedFault::without_cause(fault),
    }
}

/// Reads a document of the kind that is said, and writes what is told of it. Answers the exit
/// status.
fn run_said<R: Read, W: Write, F: Write>(
    alloc: Global,
    said: Option<Kind>,
    all: bool,
    reader: &mut Counted<R>,
    writer: &mut Counted<W>,
    faults: &mut Counted<F>,
) -> u8
    ensures { EndsWithCaused (IsOutputOf (IsVerdict said all)
        (traffic R.remaining reader.old reader.new))
        (IsFaultOf IsUnchecked (traffic R.remaining reader.old reader.new))
        (traffic W.contents writer.old writer.new)
        (traffic F.contents faults.old faults.new) result }
{
    match check_output(alloc, said, all, reader) {
        Ok(output) => finish(Ok(output), writer, faults),
        Err(fault) => give_up_caused(alloc, input_fault(alloc, fault), faults),
    }
}

/// Reads a document, and writes what is told of it: `ok` where its reader takes it; or a line for
/// the first place where it is refused, or for each where all is asked for, with the line and the
/// column in bytes, the members that lead there, what is wrong, and the refusal; or the refusal
/// alone where no place is found. The kind of document is named by a word, or else told by its
/// members.
///
/// Answers the exit status: 0 where it is taken, 1 where it is refused. Where the input isn't read,
/// or a write fails, it tells why in `faults`, as far as that takes it, and answers the status of
/// the fault: 1 where memory ran out, 3 where the input has more bytes than `MAX_INPUT_BYTES`, 4
/// where a read or a write failed. Where the word names no kind it reads and writes nothing, tells
/// that in `faults`, and answers 2.
pub fn run_check<R: Read, W: Write, F: Write>(
    alloc: Global,
    kind: Option<&str>,
    all: bool,
    reader: &mut Counted<R>,
    writer: &mut Counted<W>,
    faults: &mut Counted<F>,
) -> u8
    // Proved: `check` says `ok` of bytes just where the reader of their kind takes them, and else
    // tells first the number and the name of what that reader refuses them for, and behind that
    // others only where all is asked for; its status is 0 or 1 by that. The kind is the one that
    // is named, or that the members tell.
    // Not proved: where in the bytes a refusal is, and what is told of others: `.ci/places.py`
    // tries it.
    ensures { EndsCheck (option_map (λ word. word.now) kind.entry) all
        (traffic R.remaining reader.old reader.new) (traffic W.contents writer.old writer.new)
        (traffic F.contents faults.old faults.new) result }
{
    match kind_said(kind) {
        Some(said) => run_said(alloc, said, all, reader, writer, faults),
        None => tell_no_kind(faults),
    }
}
