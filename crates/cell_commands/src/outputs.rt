//! What the calls on the controller that a cell keeps write.

ghost use Rattle.std.specs.Prelude.{◌≡◌, [], false, true, None, IfErr, IfOk};
ghost use Rattle.jdf_words.specs.declared.kept_call.KeptCall.TheVariants.{Order, Take};
ghost use Rattle.jmf_message.specs.Decoded.{IsRefusalOf as IsUndecoded};
ghost use Rattle.journal.specs.Line.{who};
ghost use Rattle.stored_state.specs.AnyStep.{IsHanded, IsNoOrder, IsOrdered, text_of};
ghost use Rattle.stored_state.specs.Opened.{controller_in};
ghost use Rattle.streams.specs.Streams.{traffic};
ghost use Rattle.file_commands.specs.Notes.{no_notes, notes_of_order};
ghost use Rattle.cell_commands.specs.Calls.{BeginsInCell, BeginsNone, DoesStep};
ghost use Rattle.cell_commands.specs.Calls.{IsFaultInCell, IsOutputInCell, ListsText, ShowsText};
ghost use Rattle.cell_commands.specs.Faults.{DoesNone, IsNotTold};
ghost use Rattle.cell_commands.specs.Journaled.{JournalsInCell, JournalsNone};

use crate::beginning::new_in_cell;
use crate::cell_fault::CellFault;
use crate::look::{list_in_cell, show_in_cell};
use crate::ordering::order_in_cell;
use crate::taking::take_in_cell;
use cells::{Cell, CellKeep};
use controller_form::StateForm;
use file_commands::{
    ListRequest, OrderOutput, OutputWithNotes, moment_of, moment_of_picture, order_noted,
    step_output,
};
use jdf_words::KeptCall;
use journal::Journal;
use keepers::Keep;
use std::alloc::{AllocError, Global};
use std::io::Read;
use std::time::Clock;
use stored_state::AnyKept;
use streams::Counted;

/// The text of the state of a controller.
pub(crate) fn text_in<K: Keep>(alloc: Global, opened: &AnyKept<K>) -> Result<Vec<u8>, AllocError>
    ensures { IfOk result (λ text. text.items ≡ text_of (controller_in opened.now)) }
{
    match opened {
        AnyKept::Master(kept) => kept.controller().state_text(alloc),
        AnyKept::Worker(kept) => kept.controller().state_text(alloc),
    }
}

/// What `new` writes.
fn new_output<C: Cell, I: Read>(
    alloc: Global,
    cell: C,
    reader: &mut Counted<I>,
) -> Result<OutputWithNotes, CellFault>
    ensures ok { IfOk result (λ noted. (after : C) × BeginsInCell C.is_honest
        (C.view cell).chain (C.view after).chain (traffic I.remaining reader.old reader.new)
        noted.output.text.items noted.output.refused noted.notes.items) }
    ensures refused { IfErr result (BeginsNone (traffic I.remaining reader.old reader.new)) }
{
    let (noted, keep) = new_in_cell(alloc, cell, reader)?;
    drop(keep);
    Ok(noted)
}

/// What `order` writes and notes, once the step is saved.
fn order_output<C: Cell, I: Read, J: Journal>(
    alloc: Global,
    cell: C,
    at: u64,
    by: Option<&str>,
    reader: &mut Counted<I>,
    journal: &mut J,
) -> Result<OutputWithNotes, CellFault>
    ensures ok { IfOk result (λ noted. (after : C) × DoesStep (IsOrdered at) notes_of_order
        C.is_honest (C.view cell).chain (C.view after).chain
        (traffic I.remaining reader.old reader.new)
        noted.output.text.items noted.output.refused noted.notes.items) }
    ensures refused { IfErr result
        (DoesNone IsNoOrder (traffic I.remaining reader.old reader.new)) }
    ensures journal { IfOk result (λ noted. J.is_honest journal.old ≡ true →
        JournalsInCell J.held J.is_missed (who by.entry) (Order at)
        (traffic I.remaining reader.old reader.new) noted.output.text.items
        journal.old journal.new) }
    ensures unsaved { IfErr result (λ e. J.is_honest journal.old ≡ true →
        JournalsNone J.held J.is_missed journal.old journal.new e) }
{
    let mut keep = CellKeep::over(alloc, cell);
    let given = order_in_cell(alloc, &mut keep, at, by, reader, journal)?;
    let OrderOutput {
        reply,
        message,
        notes,
    } = given;
    Ok(order_noted(alloc, reply, &message, notes)?)
}

/// What `take` writes, once the step is saved.
fn take_output<C: Cell, I: Read, J: Journal>(
    alloc: Global,
    cell: C,
    at: u64,
    reader: &mut Counted<I>,
    journal: &mut J,
) -> Result<OutputWithNotes, CellFault>
    ensures ok { IfOk result (λ noted. (after : C) × DoesStep (IsHanded at) no_notes
        C.is_honest (C.view cell).chain (C.view after).chain
        (traffic I.remaining reader.old reader.new)
        noted.output.text.items noted.output.refused noted.notes.items) }
    ensures refused { IfErr result
        (DoesNone (λ bytes _. IsUndecoded bytes) (traffic I.remaining reader.old reader.new)) }
    ensures journal { IfOk result (λ noted. J.is_honest journal.old ≡ true →
        JournalsInCell J.held J.is_missed None (Take at)
        (traffic I.remaining reader.old reader.new) noted.output.text.items
        journal.old journal.new) }
    ensures unsaved { IfErr result (λ e. J.is_honest journal.old ≡ true →
        JournalsNone J.held J.is_missed journal.old journal.new e) }
{
    let mut keep = CellKeep::over(alloc, cell);
    let given = take_in_cell(alloc, &mut keep, at, reader, journal)?;
    let output = step_output(alloc, given.reply, &given.answer)?;
    Ok(OutputWithNotes {
        output,
        notes: Vec::new(alloc),
    })
}

/// What `show` writes and notes.
fn show_output<C: Cell, R: Clock>(
    clock: &R,
    alloc: Global,
    cell: C,
    picture: bool,
    at: Option<u64>,
) -> Result<OutputWithNotes, CellFault>
    ensures ok { IfOk result (λ noted. (after : C) × ShowsText picture at C.is_honest
        (C.view after).chain
        noted.output.text.items noted.output.refused noted.notes.items) }
    ensures refused { IfErr result (IsNotTold at) }
{
    let now = moment_of_picture(clock, picture, at)?;
    let mut keep = CellKeep::over(alloc, cell);
    show_in_cell(alloc, &mut keep, picture, now)
}

/// What `list` writes.
fn list_output<C: Cell, R: Clock>(
    clock: &R,
    alloc: Global,
    cell: C,
    is_open: bool,
    is_json: bool,
    at: Option<u64>,
) -> Result<OutputWithNotes, CellFault>
    ensures ok { IfOk result (λ noted. (after : C) × ListsText is_open is_json at C.is_honest
        (C.view after).chain
        noted.output.text.items noted.output.refused noted.notes.items) }
    ensures refused { IfErr result (IsNotTold at) }
{
    let now = moment_of(clock, at)?;
    let asked = ListRequest {
        is_open,
        is_json,
        now,
    };
    let mut keep = CellKeep::over(alloc, cell);
    list_in_cell(alloc, &mut keep, asked)
}

/// What a call on the controller that a cell keeps writes and notes, by this one who types, if that
/// is known.
pub fn output_in_cell<C: Cell, R: Clock, I: Read, J: Journal>(
    clock: &R,
    alloc: Global,
    cell: C,
    call: KeptCall,
    by: Option<&str>,
    reader: &mut Counted<I>,
    journal: &mut J,
) -> Result<OutputWithNotes, CellFault>
    // Proved: A call on a cell writes and notes what its command does, at its time, of a controller
    // whose text the cell gave; or it is told why not. Of an honest cell what it writes is of the
    // controller that is held, and the cell holds behind it what the call's step leaves, or the
    // controller that it began. An honest journal holds then the line of the step whose lines are
    // written, once; where there is none, what it held, unless memory ran out behind the save.
    // By `ok`, `refused`, `journal`, `unsaved`.
    // Not proved: what the cell holds where the call gives up; of that `order_in_cell` and
    // `take_in_cell` tell.
    ensures ok { IfOk result (λ noted. (after : C) × IsOutputInCell C.is_honest
        (C.view cell).chain (C.view after).chain call
        (traffic I.remaining reader.old reader.new)
        noted.output.text.items noted.output.refused noted.notes.items) }
    ensures refused { IfErr result
        (IsFaultInCell call (traffic I.remaining reader.old reader.new)) }
    ensures journal { IfOk result (λ noted. J.is_honest journal.old ≡ true →
        JournalsInCell J.held J.is_missed (who by.entry) call
        (traffic I.remaining reader.old reader.new) noted.output.text.items
        journal.old journal.new) }
    ensures unsaved { IfErr result (λ e. J.is_honest journal.old ≡ true →
        JournalsNone J.held J.is_missed journal.old journal.new e) }
{
    match call {
        KeptCall::New => new_output(alloc, cell, reader),
        KeptCall::Order { at } => order_output(alloc, cell, at, by, reader, journal),
        KeptCall::Take { at } => take_output(alloc, cell, at, reader, journal),
        KeptCall::Show { picture, at } => show_output(clock, alloc, cell, picture, at),
        KeptCall::List {
            at,
            is_open,
            is_json,
        } => list_output(clock, alloc, cell, is_open, is_json, at),
    }
}
