//! The calls of the program on a controller that is kept in a file.

ghost use Rattle.std.specs.Prelude.{◌≡◌, Bool, [], false, true, IfErr, IfOk};
ghost use Rattle.keepers.specs.InFile.{InFile};
ghost use Rattle.keepers.specs.OnDisk.{OnDisk};
ghost use Rattle.keepers.specs.SystemFile as files;
ghost use Rattle.stored_state.specs.Held.{KeptState};
ghost use Rattle.stored_state.specs.declared.addressee.Addressee.{Addressee};
ghost use Rattle.stored_state.specs.declared.any_controller.AnyController.{AnyController};
ghost use Rattle.file_commands.specs.Commands.{Begins, BeginsNone};
ghost use Rattle.file_commands.specs.Ends.{EndsInFile, EndsJournaled, IsFaultInFile};
ghost use Rattle.file_commands.specs.Ends.{IsOutputInFile, TellsInFile};
ghost use Rattle.file_commands.specs.Journaled.{JournalsInFile, JournalsNone};
ghost use Rattle.streams.specs.Fault.{fault_status};
ghost use Rattle.streams.specs.Streams.{traffic};

use crate::beginning::new_noted;
use crate::listing::list_output;
use crate::noted::{OutputWithNotes, finish_noting};
use crate::ordering::order_output;
use crate::shown::show_output;
use crate::taking::take_output;
use document_commands::{CausedFault, give_up_caused};
use jdf_words::KeptCall;
use journal::Journal;
use keepers::{FileKeep, Locks};
use shop_folder::owner_of;
use std::alloc::{Alloc, Global};
use std::io::{Read, Write};
use std::rt::Files;
use std::time::Clock;
use streams::{Counted, Fault, tell};

/// What `new` writes, once the controller is kept in a file that is made for it.
fn new_in_file<R: Locks, I: Read>(
    rt: &R,
    alloc: Global,
    file: &str,
    reader: &mut Counted<I>,
) -> Result<OutputWithNotes, Fault>
    ensures ok { IfOk result (λ noted. ((to : Addressee)
        × (after : KeptState AnyController (InFile OnDisk))
        × Begins files.is_honest files.file_bytes files.place false
        (files.keep_in_new_file file.now) to
        (traffic I.remaining reader.old reader.new) after
        noted.output.text.items noted.output.refused) × (noted.notes.items ≡ [])) }
    ensures refused { IfErr result (λ fault. (is_there : Bool) × (to : Addressee)
        × BeginsNone files.save_fails is_there (files.keep_in_new_file file.now) to
        (traffic I.remaining reader.old reader.new) fault) }
{
    let to = owner_of(rt, alloc, file)?;
    let keep = FileKeep::create_new(rt, alloc, file);
    let is_there = keep.exists();
    new_noted(alloc, keep, is_there, to, reader)
}

/// What a call on the controller in a file writes and notes. It refuses, and holds the file's lock,
/// as `run_file` says.
fn output_in_file<R: Locks + Clock + Alloc + Clone + Drop, I: Read, J: Journal>(
    rt: &R,
    alloc: Global,
    file: &str,
    call: KeptCall,
    reader: &mut Counted<I>,
    journal: &mut J,
) -> Result<OutputWithNotes, Fault>
    ensures ok { IfOk result (λ noted. IsOutputInFile file.now call
        (traffic I.remaining reader.old reader.new)
        noted.output.text.items noted.output.refused noted.notes.items) }
    ensures refused { IfErr result
        (IsFaultInFile file.now call (traffic I.remaining reader.old reader.new)) }
    ensures journal { IfOk result (λ noted. J.is_honest journal.old ≡ true →
        JournalsInFile J.held J.is_missed file.now call
        (traffic I.remaining reader.old reader.new) noted.output.text.items
        journal.old journal.new) }
    ensures unsaved { IfErr result (λ fault. J.is_honest journal.old ≡ true →
        JournalsNone J.held J.is_missed journal.old journal.new fault) }
{
    match call {
        KeptCall::New => new_in_file(rt, alloc, file, reader),
        KeptCall::Order { at } => order_output(rt, alloc, file, at, reader, journal),
        KeptCall::Take { at } => take_output(rt, alloc, file, at, reader, journal),
        KeptCall::Show { picture, at } => show_output(rt, alloc, file, picture, at),
        KeptCall::List {
            at,
            is_open,
            is_json,
        } => list_output(rt, alloc, file, is_open, is_json, at),
    }
}

/// Tells why a call on the controller in a file gives up, as far as `faults` takes it: where that
/// is `list`, with what the system says of the path. Answers the exit status.
fn give_up<R: Files, F: Write>(
    rt: &R,
    alloc: Global,
    file: &str,
    call: KeptCall,
    fault: Fault,
    faults: &mut Counted<F>,
) -> u8
    ensures told { TellsInFile call fault (traffic F.contents faults.old faults.new) }
    ensures status { result ≡ fault_status fault }
{
    match call {
        KeptCall::List { .. } => {
            let caused = CausedFault::at_path(rt, alloc, fault, file, "");
            give_up_caused(alloc, caused, faults)
        }
        _ => {
            tell(faults, &fault);
            fault.status()
        }
    }
}

/// Runs a call on the controller in a file, and writes what comes of it. Answers the exit status:
/// 0, or 1 where an order or a message was refused. Where it gives up, it writes nothing, but for a
/// front of its output where a write fails; it tells why in `faults`, as far as that takes it, and
/// answers the status of the fault: 1 where memory ran out, 3 where the input was refused or has
/// more bytes than `MAX_INPUT_BYTES`, 4 where a read or a write failed, where the controller could
/// not be loaded or saved or what its file holds is refused, and where something is there already
/// that a new controller is to be kept in.
///
/// While it works on the controller it holds the file's lock, and waits for that: of two calls on
/// one file, one comes after the other. While `order` and `take` wait for their input they hold
/// none: they look at the file first, and where it holds no controller they read nothing; what they
/// step is the controller that it holds once the input is there. A step is saved before anything of
/// it is written. Behind what `show` and an edit write, each part that a worker keeps with three
/// quarters of the bytes that a message has at most over HTTP, or more, is noted in `faults`.
/// `show --picture` and `list` are at the time of the clock where none is named, and give up as
/// `ReadFailed`, with status 4, where that tells none. Of a folder `list` notes each file that
/// holds no controller of its name, with the status 1. Where `list` can't read what it lists, what
/// the system says of that stands behind the refusal.
///
/// The line of each step that `order` and `take` save is appended to the journal behind the save,
/// while the file is locked, unless the controller refused the order or the message.
pub fn run_file<R: Locks + Clock + Alloc + Clone + Drop, I: Read, W: Write, F: Write, J: Journal>(
    rt: &R,
    alloc: Global,
    file: &str,
    call: KeptCall,
    reader: &mut Counted<I>,
    writer: &mut Counted<W>,
    faults: &mut Counted<F>,
    journal: &mut J,
) -> u8
    // Proved: `show` writes a master's ticket with its marks, a worker's entries, or the picture
    // of either; and `show` and an edit note each part that a worker keeps with 786,432 bytes or
    // more.
    // Proved: `list` writes the list of the controller, what is open and then all others, or what
    // is open alone, to the moment that is named; of a folder, that of each file in its order that
    // holds its own controller, and it notes each other.
    // Proved: A call on the controller in a file ends with what its command writes, at its file and
    // time, or with the line and the status of a fault.
    // By `ends`; `output_in_file`: `ok`, `refused`; `give_up`: `told`, `status`.
    // Proved: An honest journal holds behind a call the line of the step whose lines that wrote,
    // once; where it was refused or gave up, and behind each call that makes no step, what it held,
    // unless memory ran out behind the save.
    // By `journal`; `output_in_file`: `journal`, `unsaved`.
    // Not proved: what stands in a file: the clauses say which place was loaded and saved, and
    // neither what it held nor why it was refused.
    ensures ends { EndsInFile file.now call (traffic I.remaining reader.old reader.new)
        (traffic W.contents writer.old writer.new)
        (traffic F.contents faults.old faults.new) result }
    ensures journal { J.is_honest journal.old ≡ true → EndsJournaled J.held J.is_missed file.now
        call (traffic I.remaining reader.old reader.new)
        (traffic W.contents writer.old writer.new)
        (traffic F.contents faults.old faults.new) result journal.old journal.new }
{
    match output_in_file(rt, alloc, file, call, reader, journal) {
        Ok(noted) => finish_noting(Ok(noted), writer, faults),
        Err(fault) => give_up(rt, alloc, file, call, fault, faults),
    }
}
