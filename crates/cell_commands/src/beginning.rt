//! A new controller that a cell keeps.

ghost use Rattle.std.specs.Prelude.{◌≡◌, ◌⊎◌, ◌<◌, [], false, true, IfErr, IfOk, OnOk};
ghost use Rattle.cells.specs.Calls.{Goes};
ghost use Rattle.cells.specs.Chain.{newest};
ghost use Rattle.cells.specs.Kept.{IsPartOf, IsSwapped, holds};
ghost use Rattle.stored_state.specs.AnyStep.{text_of};
ghost use Rattle.stored_state.specs.Opened.{controller_in};
ghost use Rattle.stored_state.specs.declared.any_controller.AnyController.{AnyController};
ghost use Rattle.stored_state.specs.declared.addressee.Addressee.TheVariants.{Any};
ghost use Rattle.streams.specs.Streams.{IsUntouched, traffic};
ghost use Rattle.streams.specs.declared.refused.Refused.TheVariants.{Core};
ghost use Rattle.streams.specs.declared.fault.Fault.TheVariants.{Input};
ghost use Rattle.ticket_items.specs.declared.refusal.Refusal.TheVariants.{Memory};
ghost use Rattle.file_commands.specs.Beginning.{IsBeginning, IsNoBeginning};
ghost use Rattle.cell_commands.specs.Calls.{BeginsInCell, BeginsNone};
ghost use Rattle.cell_commands.specs.Faults.{IsUnloaded, IsUnsaved};

use crate::cell_fault::CellFault;
use crate::outputs::text_in;
use crate::stepping::save;
use cells::{Cell, CellKeep};
use file_commands::{OutputWithNotes, begin};
use keepers::{KeepFault, MemoryKeep};
use std::alloc::{AllocError, Global};
use std::io::Read;
use stored_state::Addressee;
use streams::{Counted, Fault, Output, read_input};

/// The text of the state that the input begins.
fn text_begun(alloc: Global, input: &[u8]) -> Result<Vec<u8>, Fault>
    ensures ok { IfOk result (λ text. (controller : AnyController)
        × IsBeginning Any input.now controller × (text.items ≡ text_of controller)) }
    ensures refused { IfErr result (λ fault.
        IsNoBeginning Any input.now fault ⊎ (fault ≡ Input (Core Memory))) }
{
    let keep = MemoryKeep::new(Vec::new(alloc));
    let opened = begin(alloc, keep, input, Addressee::Any)?;
    Ok(text_in(alloc, &opened)?)
}

/// The revision that a cell holds, which is 0 where it holds nothing.
fn revision_in<C: Cell>(cell: &mut C) -> Result<u64, CellFault>
    ensures goes { C.is_honest ≡ true →
        OnOk result (Goes (C.view cell.old) (C.view cell.new)) }
    ensures value { C.is_honest ≡ true → IfOk result (λ revision.
        revision ≡ (newest (C.view cell.new).chain).revision) }
    ensures refused { IfErr result IsUnloaded }
{
    match cell.read() {
        Ok(version) => Ok(version.revision()),
        Err(KeepFault::Failed) => Err(CellFault::Unread),
        Err(KeepFault::Memory) => Err(CellFault::from(AllocError)),
    }
}

/// The cell, where it holds nothing. Refuses `Taken` where it does, and `Unread`.
fn empty_cell<C: Cell>(mut cell: C) -> Result<C, CellFault>
    ensures grows { C.is_honest ≡ true → IfOk result (λ empty.
        IsPartOf (C.view cell).chain (C.view empty).chain) }
    ensures empty { C.is_honest ≡ true →
        OnOk result ((newest (C.view cell).chain).revision ≡ 0) }
    ensures refused { IfErr result (λ e. (e ≡ CellFault.Taken) ⊎ IsUnloaded e) }
{
    let revision = revision_in(&mut cell)?;
    if revision > 0 {
        return Err(CellFault::Taken);
    }
    Ok(cell)
}

/// Saves the text of the first state. Refuses `Taken` where another came first.
fn save_first<C: Cell>(keep: &mut CellKeep<C>, text: &[u8]) -> Result<(), CellFault>
    ensures made { C.is_honest ≡ true → holds keep.old.holding text.now ≡ false → OnOk result
        (IsSwapped keep.old.holding text.now (C.view keep.old.cell) (C.view keep.new.cell)) }
    ensures refused { IfErr result (λ e. (e ≡ CellFault.Taken) ⊎ IsUnsaved e) }
{
    match save(keep, text) {
        Ok(()) => Ok(()),
        Err(CellFault::Overtaken) => Err(CellFault::Taken),
        Err(fault) => Err(fault),
    }
}

/// What `new` writes once a cell that holds nothing holds what the input begins, which is nothing,
/// and the cell in its keeper. Where it holds something already the input isn't read.
pub fn new_in_cell<C: Cell, I: Read>(
    alloc: Global,
    cell: C,
    reader: &mut Counted<I>,
) -> Result<(OutputWithNotes, CellKeep<C>), CellFault>
    // Proved: `new` writes nothing; of an honest cell, what is held then is the text of the state
    // that the input begins, where no value was held before. Where something is held, nothing is
    // read.
    // By `ok`, `refused`, `untouched`.
    ensures ok { IfOk result (λ begun. BeginsInCell C.is_honest (C.view cell).chain
        (C.view begun.1.cell).chain (traffic I.remaining reader.old reader.new)
        begun.0.output.text.items begun.0.output.refused begun.0.notes.items) }
    ensures refused { IfErr result (BeginsNone (traffic I.remaining reader.old reader.new)) }
    ensures untouched { C.is_honest ≡ true → 0 < (newest (C.view cell).chain).revision →
        IsUntouched (traffic I.remaining reader.old reader.new) }
{
    let cell = empty_cell(cell)?;
    let input = read_input(alloc, reader)?;
    let text = text_begun(alloc, input.as_slice())?;
    let mut keep = CellKeep::over_new(alloc, cell);
    save_first(&mut keep, text.as_slice())?;
    Ok((nothing_written(alloc), keep))
}

/// An output of no bytes, of which nothing is noted.
fn nothing_written(alloc: Global) -> OutputWithNotes
    ensures text { result.output.text.items ≡ [] }
    ensures accepted { result.output.refused ≡ false }
    ensures notes { result.notes.items ≡ [] }
{
    OutputWithNotes {
        output: Output {
            text: Vec::new(alloc),
            refused: false,
        },
        notes: Vec::new(alloc),
    }
}
