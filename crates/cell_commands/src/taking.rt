//! Messages for the controller that a cell keeps.

ghost use Rattle.std.specs.Prelude.{◌≡◌, ◌≤◌, [], true, option_map, IfErr, IfOk, OnErr};
ghost use Rattle.jmf_message.specs.Decoded.{IsRefusalOf as IsUndecoded};
ghost use Rattle.cells.specs.Chain.{newest};
ghost use Rattle.journal.specs.Journal.{IsLeft};
ghost use Rattle.streams.specs.Streams.{IsUntouched, traffic};
ghost use Rattle.stored_state.specs.AnyStep.{IsHanded, text_of};
ghost use Rattle.stored_state.specs.Opened.{controller_in};
ghost use Rattle.file_commands.specs.Journaled.{IsMessageLine};
ghost use Rattle.file_commands.specs.Notes.{no_notes};
ghost use Rattle.cell_commands.specs.Faults.{DoesNone, DoesNoneOf};
ghost use Rattle.cell_commands.specs.Given.{GivesBytesLine, GivesBytesNoting};
ghost use Rattle.cell_commands.specs.Given.{GivesLine, GivesStep};
ghost use Rattle.cell_commands.specs.Steps.{IsNoStep, MakesStep, MakesTaking};

use crate::cell_fault::CellFault;
use crate::look::look;
use crate::outputs::text_in;
use crate::stepping::step_in_cell;
use cells::{Cell, CellKeep, Step};
use file_commands::{fault_of, journal_message, open_keep};
use journal::Journal;
use keepers::MemoryKeep;
use std::alloc::{AllocError, Global};
use std::io::Read;
use stored_state::{AnyKept, TakenBytes};
use streams::{Counted, Fault, read_input};

/// The step of a controller on the message that bytes are, at a time in seconds since 1970 (our
/// own).
#[derive(Drop)]
pub struct MessageStep<'a> {
    /// The bytes.
    pub bytes: &'a [u8],
    /// The time.
    pub at: u64,
}

/// What such a step of the controller gives whose state bytes are the text of, and the controller
/// as it is then.
fn taken(
    alloc: Global,
    held: Vec<u8>,
    bytes: &[u8],
    at: u64,
) -> Result<(TakenBytes, AnyKept<MemoryKeep>), Fault>
    ensures ok { IfOk result (λ given. MakesStep (IsHanded at) bytes.now held.items
        (text_of (controller_in given.1)) given.0.reply
        (option_map (λ b. b.items) given.0.answer) (controller_in given.1)) }
    ensures refused { IfErr result (IsNoStep (λ bytes _. IsUndecoded bytes) bytes.now held.items) }
{
    let mut opened = open_keep(alloc, MemoryKeep::new(held))?;
    match opened.take(alloc, bytes, at) {
        Ok(given) => Ok((given, opened)),
        Err(refused) => Err(fault_of(refused)),
    }
}

impl<'a> Step for MessageStep<'a> {
    type Given = Result<(TakenBytes, AnyKept<MemoryKeep>), Fault>;

    // The step of a message in a cell is that of the message that the bytes are, at its
    // time, of the controller whose text was held, and leads to the text of the state behind it;
    // or it says why there is none, and that text stays.
    ghost makes = { λ step held text given. MakesTaking step.at step.bytes.now held text given };

    fn make(&self, alloc: Global, bytes: &[u8]) -> Result<(Vec<u8>, Self::Given), AllocError> {
        let held = Vec::from_slice(alloc, bytes)?;
        match taken(alloc, held, self.bytes, self.at) {
            Ok((given, opened)) => {
                let text = text_in(alloc, &opened)?;
                Ok((text, Ok((given, opened))))
            }
            Err(fault) => Ok((Vec::from_slice(alloc, bytes)?, Err(fault))),
        }
    }
}

/// What the message that bytes are gives out, once its step is saved. Behind the save the line of
/// the step, by the message's sender, is appended to the journal, unless the controller refused the
/// message.
fn take_given<C: Cell, J: Journal>(
    alloc: Global,
    keep: &mut CellKeep<C>,
    bytes: &[u8],
    at: u64,
    journal: &mut J,
) -> Result<TakenBytes, CellFault>
    ensures ok { IfOk result (λ given. GivesBytesNoting (IsHanded at) C.is_honest
        (C.view keep.old.cell).chain (C.view keep.new.cell).chain bytes.now given.reply
        (option_map (λ b. b.items) given.answer) (no_notes given.reply) []) }
    ensures refused { IfErr result (DoesNoneOf (λ bytes _. IsUndecoded bytes) bytes.now) }
    ensures rises { C.is_honest ≡ true → (newest (C.view keep.old.cell).chain).revision
        ≤ (newest (C.view keep.new.cell).chain).revision }
    ensures journal { IfOk result (λ given. J.is_honest journal.old ≡ true →
        GivesBytesLine (IsHanded at) C.is_honest
        (C.view keep.old.cell).chain (C.view keep.new.cell).chain bytes.now given.reply
        (option_map (λ b. b.items) given.answer) J.held J.is_missed
        (λ name. IsMessageLine name at bytes.now) journal.old journal.new) }
    ensures unsaved { OnErr result (J.is_honest journal.old ≡ true →
        IsLeft J.held J.is_missed journal.old journal.new) }
{
    let stepped = step_in_cell(alloc, keep, &MessageStep { bytes, at })?;
    let (given, opened) = stepped?;
    journal_message(alloc, journal, &opened, bytes, &given.reply, at);
    drop(opened);
    Ok(given)
}

/// What a message to the controller that a cell keeps gives out, once its step is saved. Where the
/// cell keeps no controller nothing is read; while the input is read others may step it. Behind the
/// save the line of the step, by the message's sender, is appended to the journal, unless the
/// controller refused the message.
pub fn take_in_cell<C: Cell, I: Read, J: Journal>(
    alloc: Global,
    keep: &mut CellKeep<C>,
    at: u64,
    reader: &mut Counted<I>,
    journal: &mut J,
) -> Result<TakenBytes, CellFault>
    ensures ok { IfOk result (λ given. GivesStep (IsHanded at) C.is_honest
        (C.view keep.old.cell).chain (C.view keep.new.cell).chain
        (traffic I.remaining reader.old reader.new) given.reply
        (option_map (λ b. b.items) given.answer) (no_notes given.reply) []) }
    ensures refused { IfErr result
        (DoesNone (λ bytes _. IsUndecoded bytes) (traffic I.remaining reader.old reader.new)) }
    ensures untouched { C.is_honest ≡ true →
        (newest (C.view keep.new.cell).chain).revision ≡ 0 →
        IsUntouched (traffic I.remaining reader.old reader.new) }
    ensures journal { IfOk result (λ given. J.is_honest journal.old ≡ true →
        GivesLine (IsHanded at) C.is_honest
        (C.view keep.old.cell).chain (C.view keep.new.cell).chain
        (traffic I.remaining reader.old reader.new) given.reply
        (option_map (λ b. b.items) given.answer) J.held J.is_missed
        (λ name bytes. IsMessageLine name at bytes) journal.old journal.new) }
    ensures unsaved { OnErr result (J.is_honest journal.old ≡ true →
        IsLeft J.held J.is_missed journal.old journal.new) }
{
    look(alloc, keep)?;
    let input = read_input(alloc, reader)?;
    take_given(alloc, keep, input.as_slice(), at, journal)
}
