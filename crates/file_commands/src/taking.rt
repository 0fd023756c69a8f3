//! Messages for the controller in a file.

ghost use Rattle.std.specs.Prelude.{◌≡◌, true, IfOk, IfErr, OnErr};
ghost use Rattle.std.specs.Option.{option_map};
ghost use Rattle.jdf_words.specs.declared.kept_call.KeptCall.TheVariants.{Take};
ghost use Rattle.journal.specs.Journal.{IsJournaled, IsLeft};
ghost use Rattle.keepers.specs.InFile.{InFile};
ghost use Rattle.keepers.specs.OnDisk.{OnDisk};
ghost use Rattle.file_commands.specs.Calls as calls;
ghost use Rattle.file_commands.specs.Calls.{DoesNone, DoesNoneOf};
ghost use Rattle.file_commands.specs.Commands.{DoesNoStep, DoesStep, GivesHeld};
ghost use Rattle.file_commands.specs.Commands.{GivesStepOf};
ghost use Rattle.file_commands.specs.Journaled.{IsMessageLine, JournalsInFile, JournalsNone};
ghost use Rattle.file_commands.specs.Journaled.{MessageJournaled};
ghost use Rattle.file_commands.specs.Notes.{no_notes};
ghost use Rattle.jmf_message.specs.Decoded.{IsRefusalOf};
ghost use Rattle.stored_state.specs.Addressee.{name_of};
ghost use Rattle.stored_state.specs.AnyStep.{IsHanded};
ghost use Rattle.stored_state.specs.Held.{KeptState};
ghost use Rattle.stored_state.specs.Opened.{controller_in, kept_of};
ghost use Rattle.stored_state.specs.declared.any_controller.AnyController.{AnyController};
ghost use Rattle.streams.specs.Streams.{traffic};

use crate::journaling::journal_message;
use crate::noted::OutputWithNotes;
use crate::opening::{locked_keep, opened_again, snapshot_of};
use crate::step::{fault_of, step_output};
use journal::Journal;
use keepers::{Keep, Locks};
use std::alloc::Global;
use std::io::Read;
use stored_state::{AnyKept, Snapshot, TakenBytes};
use streams::{Counted, Fault, read_input};

/// What a message to the controller that a keeper holds gives out, once its step is saved, and the
/// controller beside its keeper as it is then. The text of a snapshot isn't read once more. Behind
/// the save the line of the step, by the message's sender, is appended to the journal, unless the
/// controller refused the message.
fn take_held<K: Keep, J: Journal>(
    alloc: Global,
    keep: K,
    seen: Option<Snapshot>,
    bytes: &[u8],
    at: u64,
    journal: &mut J,
) -> Result<(TakenBytes, AnyKept<K>), Fault>
    ensures ok { IfOk result (λ given. GivesHeld K.is_honest K.held K.place (IsHanded at)
        bytes.now keep (kept_of given.1)
        given.0.reply (option_map (λ b. b.items) given.0.answer)) }
    ensures refused { IfErr result (DoesNoStep K.is_honest K.held K.place K.count K.load_fails
        K.save_fails (λ bytes _. IsRefusalOf bytes) (IsHanded at) bytes.now keep) }
    ensures journal { IfOk result (λ given. J.is_honest journal.old ≡ true →
        IsJournaled J.held J.is_missed
        (IsMessageLine (name_of (controller_in given.1)) at bytes.now)
        given.0.reply journal.old journal.new) }
    ensures unsaved { OnErr result (J.is_honest journal.old ≡ true →
        IsLeft J.held J.is_missed journal.old journal.new) }
{
    let mut opened = opened_again(alloc, keep, seen)?;
    match opened.take(alloc, bytes, at) {
        Ok(given) => {
            journal_message(alloc, journal, &opened, bytes, &given.reply, at);
            Ok((given, opened))
        }
        Err(refused) => Err(fault_of(refused)),
    }
}

/// What such a message gives out; the keeper is let go.
fn take_given<K: Keep, J: Journal>(
    alloc: Global,
    keep: K,
    seen: Option<Snapshot>,
    bytes: &[u8],
    at: u64,
    journal: &mut J,
) -> Result<TakenBytes, Fault>
    ensures ok { IfOk result (λ given. (after : KeptState AnyController K)
        × GivesHeld K.is_honest K.held K.place (IsHanded at) bytes.now keep after
        given.reply (option_map (λ b. b.items) given.answer)) }
    ensures refused { IfErr result (DoesNoStep K.is_honest K.held K.place K.count K.load_fails
        K.save_fails (λ bytes _. IsRefusalOf bytes) (IsHanded at) bytes.now keep) }
    ensures journal { IfOk result (λ given. J.is_honest journal.old ≡ true →
        (after : KeptState AnyController K)
        × GivesHeld K.is_honest K.held K.place (IsHanded at) bytes.now keep after
        given.reply (option_map (λ b. b.items) given.answer)
        × IsJournaled J.held J.is_missed (IsMessageLine (name_of after.controller) at bytes.now)
        given.reply journal.old journal.new) }
    ensures unsaved { OnErr result (J.is_honest journal.old ≡ true →
        IsLeft J.held J.is_missed journal.old journal.new) }
{
    let (given, opened) = take_held(alloc, keep, seen, bytes, at, journal)?;
    drop(opened);
    Ok(given)
}

/// What a message to the controller in a file gives out, once its step is saved; the file isn't
/// locked any more then. Of a file that holds the text of the snapshot still, if there is one, that
/// isn't read once more. Refuses as `run_file` says of `take` whose input is read. Behind the save,
/// and while the file is locked, the line of the step is appended to the journal, unless the
/// controller refused the message.
pub fn take_in_file<R: Locks, J: Journal>(
    rt: &R,
    alloc: Global,
    file: &str,
    seen: Option<Snapshot>,
    bytes: &[u8],
    at: u64,
    journal: &mut J,
) -> Result<TakenBytes, Fault>
    ensures ok { IfOk result (λ given. (after : KeptState AnyController (InFile OnDisk))
        × GivesHeld calls.is_honest calls.file_bytes calls.place (IsHanded at)
        bytes.now (calls.keep_in_file file.now) after
        given.reply (option_map (λ b. b.items) given.answer)) }
    ensures refused { IfErr result (DoesNoneOf (λ bytes _. IsRefusalOf bytes) (IsHanded at)
        file.now bytes.now) }
    ensures journal { IfOk result (λ given. J.is_honest journal.old ≡ true →
        (after : KeptState AnyController (InFile OnDisk))
        × GivesHeld calls.is_honest calls.file_bytes calls.place (IsHanded at) bytes.now
        (calls.keep_in_file file.now) after given.reply (option_map (λ b. b.items) given.answer)
        × IsJournaled J.held J.is_missed (IsMessageLine (name_of after.controller) at bytes.now)
        given.reply journal.old journal.new) }
    ensures unsaved { OnErr result (J.is_honest journal.old ≡ true →
        IsLeft J.held J.is_missed journal.old journal.new) }
{
    match locked_keep(rt, alloc, file) {
        Ok(keep) => take_given(alloc, keep, seen, bytes, at, journal),
        Err(fault) => Err(fault),
    }
}

/// What `take` gives out, once the step is saved. The file is looked at first, and where it holds
/// no controller nothing is read; while the input is read it isn't locked.
fn take_input<R: Locks, I: Read, J: Journal>(
    rt: &R,
    alloc: Global,
    file: &str,
    at: u64,
    reader: &mut Counted<I>,
    journal: &mut J,
) -> Result<TakenBytes, Fault>
    ensures ok { IfOk result (λ given. (after : KeptState AnyController (InFile OnDisk))
        × GivesStepOf calls.is_honest calls.file_bytes calls.place (IsHanded at)
        (calls.keep_in_file file.now) (traffic I.remaining reader.old reader.new) after
        given.reply (option_map (λ b. b.items) given.answer)) }
    ensures refused { IfErr result (DoesNone (λ bytes _. IsRefusalOf bytes) (IsHanded at)
        file.now (traffic I.remaining reader.old reader.new)) }
    ensures journal { IfOk result (λ given. J.is_honest journal.old ≡ true →
        MessageJournaled J.held J.is_missed at (calls.keep_in_file file.now)
        (traffic I.remaining reader.old reader.new) given.reply
        (option_map (λ b. b.items) given.answer) journal.old journal.new) }
    ensures unsaved { OnErr result (J.is_honest journal.old ≡ true →
        IsLeft J.held J.is_missed journal.old journal.new) }
{
    let snapshot = snapshot_of(rt, alloc, file)?;
    let input = read_input(alloc, reader)?;
    take_in_file(
        rt,
        alloc,
        file,
        Some(snapshot),
        input.as_slice(),
        at,
        journal,
    )
}

/// What `take` writes, once the step is saved.
pub(crate) fn take_output<R: Locks, I: Read, J: Journal>(
    rt: &R,
    alloc: Global,
    file: &str,
    at: u64,
    reader: &mut Counted<I>,
    journal: &mut J,
) -> Result<OutputWithNotes, Fault>
    ensures ok { IfOk result (λ noted. DoesStep calls.is_honest calls.file_bytes calls.place
        (IsHanded at)
        no_notes (calls.keep_in_file file.now) (traffic I.remaining reader.old reader.new)
        noted.output.text.items noted.output.refused noted.notes.items) }
    ensures refused { IfErr result (DoesNone (λ bytes _. IsRefusalOf bytes) (IsHanded at)
        file.now (traffic I.remaining reader.old reader.new)) }
    ensures journal { IfOk result (λ noted. J.is_honest journal.old ≡ true →
        JournalsInFile J.held J.is_missed file.now (Take at)
        (traffic I.remaining reader.old reader.new) noted.output.text.items
        journal.old journal.new) }
    ensures unsaved { IfErr result (λ fault. J.is_honest journal.old ≡ true →
        JournalsNone J.held J.is_missed journal.old journal.new fault) }
{
    let given = take_input(rt, alloc, file, at, reader, journal)?;
    match step_output(alloc, given.reply, &given.answer) {
        Ok(output) => Ok(OutputWithNotes::without_notes(alloc, output)),
        Err(fault) => Err(fault),
    }
}
