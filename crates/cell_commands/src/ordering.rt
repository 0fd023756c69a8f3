//! Orders to the controller that a cell keeps.

ghost use Rattle.std.specs.Prelude.{◌≡◌, ◌≤◌, true, option_map, IfErr, IfOk};
ghost use Rattle.cells.specs.Chain.{newest};
ghost use Rattle.journal.specs.Line.{who};
ghost use Rattle.streams.specs.Streams.{IsUntouched, traffic};
ghost use Rattle.stored_state.specs.AnyStep.{IsNoOrder, IsOrdered, text_of};
ghost use Rattle.stored_state.specs.Opened.{controller_in};
ghost use Rattle.stored_state.specs.declared.any_controller.AnyController.{AnyController};
ghost use Rattle.file_commands.specs.Journaled.{IsOrderLine};
ghost use Rattle.file_commands.specs.Notes.{notes_of_order};
ghost use Rattle.cell_commands.specs.Faults.{DoesNone, DoesNoneOf};
ghost use Rattle.cell_commands.specs.Given.{GivesBytesNoting, GivesBytesLine};
ghost use Rattle.cell_commands.specs.Given.{GivesLine, GivesStep};
ghost use Rattle.cell_commands.specs.Journaled.{JournalsNone};
ghost use Rattle.cell_commands.specs.Steps.{IsNoStep, MakesOrder, MakesStep};

use crate::cell_fault::CellFault;
use crate::look::look;
use crate::outputs::text_in;
use crate::stepping::step_in_cell;
use cells::{Cell, CellKeep, Step};
use file_commands::{OrderOutput, fault_of, journal_order, notes_of_order, open_keep};
use journal::Journal;
use keepers::MemoryKeep;
use std::alloc::{AllocError, Global};
use std::io::Read;
use stored_state::{AnyKept, OrderBytes};
use streams::{Counted, Fault, read_input};

/// The step of a controller on the order that the input is, at a time in seconds since 1970 (our
/// own).
#[derive(Drop)]
pub struct OrderStep<'a> {
    /// The input.
    pub input: &'a [u8],
    /// The time.
    pub at: u64,
}

/// What such a step of the controller gives whose state bytes are the text of, and the controller
/// as it is then.
fn ordered(
    alloc: Global,
    held: Vec<u8>,
    input: &[u8],
    at: u64,
) -> Result<(OrderBytes, AnyKept<MemoryKeep>), Fault>
    ensures ok { IfOk result (λ given. MakesStep (IsOrdered at) input.now held.items
        (text_of (controller_in given.1)) given.0.reply
        (option_map (λ b. b.items) given.0.message) (controller_in given.1)) }
    ensures refused { IfErr result (IsNoStep IsNoOrder input.now held.items) }
{
    let mut opened = open_keep(alloc, MemoryKeep::new(held))?;
    match opened.order(alloc, input, at) {
        Ok(given) => Ok((given, opened)),
        Err(refused) => Err(fault_of(refused)),
    }
}

impl<'a> Step for OrderStep<'a> {
    type Given = Result<(OrderBytes, AnyKept<MemoryKeep>), Fault>;

    // The step of an order in a cell is that of the order that the input is, at its time,
    // of the controller whose text was held, and leads to the text of the state behind it; or it
    // says why there is none, and that text stays.
    ghost makes = { λ step held text given. MakesOrder step.at step.input.now held text given };

    fn make(&self, alloc: Global, bytes: &[u8]) -> Result<(Vec<u8>, Self::Given), AllocError> {
        let held = Vec::from_slice(alloc, bytes)?;
        match ordered(alloc, held, self.input, self.at) {
            Ok((given, opened)) => {
                let text = text_in(alloc, &opened)?;
                Ok((text, Ok((given, opened))))
            }
            Err(fault) => Ok((Vec::from_slice(alloc, bytes)?, Err(fault))),
        }
    }
}

/// What the order that bytes are gives out, once its step is saved, and what is noted of it. Behind
/// the save the line of the step, by this one, is appended to the journal, unless the controller
/// refused the order.
fn order_given<C: Cell, J: Journal>(
    alloc: Global,
    keep: &mut CellKeep<C>,
    input: &[u8],
    at: u64,
    by: Option<&str>,
    journal: &mut J,
) -> Result<OrderOutput, CellFault>
    ensures ok { IfOk result (λ given. GivesBytesNoting (IsOrdered at) C.is_honest
        (C.view keep.old.cell).chain (C.view keep.new.cell).chain input.now given.reply
        (option_map (λ b. b.items) given.message) (notes_of_order given.reply) given.notes.items) }
    ensures refused { IfErr result (DoesNoneOf IsNoOrder input.now) }
    ensures rises { C.is_honest ≡ true → (newest (C.view keep.old.cell).chain).revision
        ≤ (newest (C.view keep.new.cell).chain).revision }
    ensures journal { IfOk result (λ given. J.is_honest journal.old ≡ true →
        GivesBytesLine (IsOrdered at) C.is_honest
        (C.view keep.old.cell).chain (C.view keep.new.cell).chain input.now given.reply
        (option_map (λ b. b.items) given.message) J.held J.is_missed
        (λ name. IsOrderLine (who by.entry) name at input.now) journal.old journal.new) }
    ensures unsaved { IfErr result (λ e. J.is_honest journal.old ≡ true →
        JournalsNone J.held J.is_missed journal.old journal.new e) }
{
    let stepped = step_in_cell(alloc, keep, &OrderStep { input, at })?;
    let (given, opened) = stepped?;
    journal_order(alloc, journal, &opened, by, input, &given.reply, at);
    let notes = notes_of_order(alloc, &given.reply, &opened)?;
    let OrderBytes { reply, message } = given;
    Ok(OrderOutput {
        reply,
        message,
        notes,
    })
}

/// What an order to the controller that a cell keeps gives out, once its step is saved, and what is
/// noted of it. Where the cell keeps no controller nothing is read; while the input is read others
/// may step it. Behind the save the line of the step, by this one, is appended to the journal,
/// unless the controller refused the order.
pub fn order_in_cell<C: Cell, I: Read, J: Journal>(
    alloc: Global,
    keep: &mut CellKeep<C>,
    at: u64,
    by: Option<&str>,
    reader: &mut Counted<I>,
    journal: &mut J,
) -> Result<OrderOutput, CellFault>
    // Proved: What an order or a message to the controller in a cell gives out is the reply and
    // the text of the step of the controller whose text the cell gave; of an honest cell it was
    // held, and stays or was replaced by that of the state behind the step, directly. An honest
    // journal gets the line of the step, once; where nothing was saved it is left as it was. Where
    // an honest cell holds nothing at the end nothing was read.
    // By `ok`, `refused`, `untouched`, `journal`, `unsaved`; `take_in_cell`: `ok`, `refused`,
    // `untouched`, `journal`, `unsaved`.
    ensures ok { IfOk result (λ given. GivesStep (IsOrdered at) C.is_honest
        (C.view keep.old.cell).chain (C.view keep.new.cell).chain
        (traffic I.remaining reader.old reader.new) given.reply
        (option_map (λ b. b.items) given.message) (notes_of_order given.reply) given.notes.items) }
    ensures refused { IfErr result
        (DoesNone IsNoOrder (traffic I.remaining reader.old reader.new)) }
    ensures untouched { C.is_honest ≡ true →
        (newest (C.view keep.new.cell).chain).revision ≡ 0 →
        IsUntouched (traffic I.remaining reader.old reader.new) }
    ensures journal { IfOk result (λ given. J.is_honest journal.old ≡ true →
        GivesLine (IsOrdered at) C.is_honest
        (C.view keep.old.cell).chain (C.view keep.new.cell).chain
        (traffic I.remaining reader.old reader.new) given.reply
        (option_map (λ b. b.items) given.message) J.held J.is_missed
        (λ name bytes. IsOrderLine (who by.entry) name at bytes) journal.old journal.new) }
    ensures unsaved { IfErr result (λ e. J.is_honest journal.old ≡ true →
        JournalsNone J.held J.is_missed journal.old journal.new e) }
{
    look(alloc, keep)?;
    let input = read_input(alloc, reader)?;
    order_given(alloc, keep, input.as_slice(), at, by, journal)
}
