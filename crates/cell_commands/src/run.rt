//! The calls of the program on a controller that etcd keeps.

ghost use Rattle.std.specs.Prelude.{◌≡◌, ℕ, [], false, true, List, Option, IfErr, IfOk};
ghost use Rattle.cell_commands.specs.Calls.{EndsInCell, IsFaultInCell, IsOutputInCell};
ghost use Rattle.cell_commands.specs.Faults.{fault_in};
ghost use Rattle.cell_commands.specs.Journaled.{EndsJournaled, JournalsInCell, JournalsNone};
ghost use Rattle.streams.specs.Streams.{traffic};

use crate::cell_fault::CellFault;
use crate::outputs::output_in_cell;
use cells::Cell;
use document_commands::{CausedFault, give_up_caused};
use etcd_place::EtcdPlace;
use file_commands::{OutputWithNotes, finish_noting, typist};
use jdf_words::KeptCall;
use journal::Journal;
use keepers::{KeepFault, Locks};
use std::alloc::{AllocError, Global};
use std::io::{Read, Write};
use std::net::Net;
use std::time::{Clock, Duration};
use streams::Counted;

/// How long each exchange with a gateway takes at most, in seconds.
const EXCHANGE_SECONDS: u64 = 5;

/// The exit status for words that stand for no call.
const NO_CALL: u8 = 2;

/// A text, if there is one.
fn text_of(text: &Option<String>) -> Option<&str> {
    match text {
        Some(text) => Some(text.as_str()),
        None => None,
    }
}

/// Whether a cell holds nothing.
fn is_empty<C: Cell>(mut cell: C) -> Result<bool, KeepFault> {
    let version = cell.read()?;
    Ok(version.revision() == 0)
}

/// Why nothing was read, as far as that is seen by asking once more.
fn why_unread<R: Net + Clock>(
    rt: &R,
    alloc: Global,
    place: EtcdPlace<'_>,
) -> Result<String, AllocError> {
    let cell = place.cell(rt, alloc, Duration::from_secs(EXCHANGE_SECONDS))?;
    match is_empty(cell) {
        Ok(true) => String::from_str(alloc, "nothing is kept there"),
        Ok(false) => Ok(String::new(alloc)),
        Err(KeepFault::Failed) => no_answer(alloc, place),
        Err(KeepFault::Memory) => Err(AllocError),
    }
}

/// That no answer came.
fn no_answer(alloc: Global, place: EtcdPlace<'_>) -> Result<String, AllocError> {
    let gateway = place.gateway();
    format!(in alloc; "no answer from {gateway}")
}

/// What a fault comes from, as far as that is known.
fn cause_of<R: Net + Clock>(
    rt: &R,
    alloc: Global,
    place: EtcdPlace<'_>,
    fault: &CellFault,
) -> Result<String, AllocError> {
    match fault {
        CellFault::Call(_) => Ok(String::new(alloc)),
        CellFault::Unread => why_unread(rt, alloc, place),
        CellFault::Taken => String::from_str(alloc, "something is kept there"),
        CellFault::Unanswered => no_answer(alloc, place),
        CellFault::Overtaken => String::from_str(alloc, "another came first 16 times"),
        CellFault::TooLarge => String::from_str(alloc, "more than 1,000,000 bytes"),
    }
}

/// A fault with what it comes from, where that is known.
fn caused_by<R: Net + Clock>(
    rt: &R,
    alloc: Global,
    place: EtcdPlace<'_>,
    fault: &CellFault,
) -> CausedFault
    ensures { result.fault ≡ fault_in fault.now }
{
    match cause_of(rt, alloc, place, fault) {
        Ok(cause) if !cause.is_empty() => CausedFault::at(alloc, fault.fault(), cause.as_str()),
        _ => CausedFault::without_cause(fault.fault()),
    }
}

/// What a call on the controller at a place writes and notes.
fn output_at<R: Locks + Net + Clock, I: Read, J: Journal>(
    rt: &R,
    alloc: Global,
    place: EtcdPlace<'_>,
    call: KeptCall,
    reader: &mut Counted<I>,
    journal: &mut J,
) -> Result<OutputWithNotes, CellFault>
    ensures ok { IfOk result (λ noted. IsOutputInCell false [] [] call
        (traffic I.remaining reader.old reader.new)
        noted.output.text.items noted.output.refused noted.notes.items) }
    ensures refused { IfErr result
        (IsFaultInCell call (traffic I.remaining reader.old reader.new)) }
    ensures journal { IfOk result (λ noted. J.is_honest journal.old ≡ true →
        (by : Option (List ℕ)) × JournalsInCell J.held J.is_missed by call
        (traffic I.remaining reader.old reader.new) noted.output.text.items
        journal.old journal.new) }
    ensures unsaved { IfErr result (λ e. J.is_honest journal.old ≡ true →
        JournalsNone J.held J.is_missed journal.old journal.new e) }
{
    let by = typist(rt, alloc, journal);
    let cell = match place.cell(rt, alloc, Duration::from_secs(EXCHANGE_SECONDS)) {
        Ok(cell) => cell,
        Err(AllocError) => return Err(CellFault::from(AllocError)),
    };
    output_in_cell(rt, alloc, cell, call, text_of(&by), reader, journal)
}

/// Runs a call on the controller that etcd keeps at a place, and writes what comes of it, as
/// `run_file` does on one in a file. A step is saved before anything of it is written; where
/// another's step came first it is made anew, of what is held then. Behind the refusal of a load or
/// a save stands what is known of it.
pub fn run_in_cell<R: Locks + Net + Clock, I: Read, W: Write, F: Write, J: Journal>(
    rt: &R,
    alloc: Global,
    place: EtcdPlace<'_>,
    call: KeptCall,
    reader: &mut Counted<I>,
    writer: &mut Counted<W>,
    faults: &mut Counted<F>,
    journal: &mut J,
) -> u8
    // Proved: A call on a controller that etcd keeps ends with what its command writes, at its
    // time, or with the line and the status of a fault. A text that begins with `etcd://` and is
    // no place there has the status of words that stand for no call.
    // By `ends`; `refuse_place`.
    // Proved: An honest journal holds behind such a call the line of the step whose lines that
    // wrote, once; where it was refused or gave up, and behind each call that makes no step, what
    // it held, unless memory ran out behind the save.
    // By `journal`.
    // Not proved: what stands behind the refusal of a load or a save, that what etcd gave was held,
    // and what is saved there.
    ensures ends { EndsInCell call (traffic I.remaining reader.old reader.new)
        (traffic W.contents writer.old writer.new)
        (traffic F.contents faults.old faults.new) result }
    ensures journal { J.is_honest journal.old ≡ true → EndsJournaled J.held J.is_missed call
        (traffic I.remaining reader.old reader.new)
        (traffic W.contents writer.old writer.new)
        (traffic F.contents faults.old faults.new) result journal.old journal.new }
{
    match output_at(rt, alloc, place, call, reader, journal) {
        Ok(noted) => finish_noting(Ok(noted), writer, faults),
        Err(fault) => give_up_caused(alloc, caused_by(rt, alloc, place, &fault), faults),
    }
}

/// Tells that a text which begins with `etcd://` is no place in etcd, as far as `faults` takes it.
/// Answers the exit status for words that stand for no call.
pub fn refuse_place<F: Write>(text: &str, faults: &mut Counted<F>) -> u8
    ensures { result ≡ NO_CALL }
{
    let _ = writeln!(
        faults,
        "error: invalid value '{text}' for 'FILE': a place in etcd is etcd://HOST:PORT/NAME"
    );
    NO_CALL
}
