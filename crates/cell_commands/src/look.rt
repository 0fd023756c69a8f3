//! A look at the controller that a cell keeps.

ghost use Rattle.std.specs.Prelude.{◌≡◌, ◌⊎◌, ◌<◌, ℕ, List, true, IfErr, IfOk, OnOk};
ghost use Rattle.cells.specs.Chain.{newest};
ghost use Rattle.cells.specs.Kept.{IsPartOf};
ghost use Rattle.file_commands.specs.Commands.{Shows};
ghost use Rattle.file_commands.specs.Listing.{ListsOne};
ghost use Rattle.cell_commands.specs.Calls.{has_no_place, is_held, text_held};
ghost use Rattle.cell_commands.specs.Faults.{IsUnseen, out_of_memory};

use crate::cell_fault::CellFault;
use crate::stepping::load;
use cells::{Cell, CellKeep};
use file_commands::{ListRequest, OutputWithNotes, kept_list, kept_shown, open_keep};
use keepers::MemoryKeep;
use std::alloc::Global;

/// Whether a controller can be loaded of a cell.
pub(crate) fn look<C: Cell>(alloc: Global, keep: &mut CellKeep<C>) -> Result<(), CellFault>
    ensures grows { C.is_honest ≡ true → OnOk result
        (IsPartOf (C.view keep.old.cell).chain (C.view keep.new.cell).chain) }
    ensures there { C.is_honest ≡ true →
        OnOk result (0 < (newest (C.view keep.new.cell).chain).revision) }
    ensures refused { IfErr result IsUnseen }
{
    let held = load(keep)?;
    let opened = open_keep(alloc, MemoryKeep::new(held))?;
    drop(opened);
    Ok(())
}

/// What `show` writes of the controller that a cell keeps, which is what that shows or its picture,
/// and what it notes of it.
pub fn show_in_cell<C: Cell>(
    alloc: Global,
    keep: &mut CellKeep<C>,
    picture: bool,
    now: u64,
) -> Result<OutputWithNotes, CellFault>
    // Proved: What `show` and `list` write of a cell is of the controller whose text it gave, which
    // of an honest cell is the one that is held; else it is told that there is none at hand.
    // By `ok`, `seen`, `refused`; `list_in_cell`: `ok`, `seen`, `refused`.
    ensures ok { IfOk result (λ noted. (held : List ℕ)
        × Shows picture now is_held text_held has_no_place held
        noted.output.text.items noted.output.refused noted.notes.items) }
    ensures seen { C.is_honest ≡ true → IfOk result (λ noted.
        Shows picture now is_held text_held has_no_place
        (newest (C.view keep.new.cell).chain).bytes
        noted.output.text.items noted.output.refused noted.notes.items) }
    ensures refused { IfErr result (λ e. IsUnseen e ⊎ (e ≡ out_of_memory)) }
{
    let held = load(keep)?;
    Ok(kept_shown(alloc, MemoryKeep::new(held), picture, now)?)
}

/// What `list` writes of the controller that a cell keeps.
pub fn list_in_cell<C: Cell>(
    alloc: Global,
    keep: &mut CellKeep<C>,
    asked: ListRequest,
) -> Result<OutputWithNotes, CellFault>
    ensures ok { IfOk result (λ noted. (held : List ℕ)
        × ListsOne asked is_held text_held held
        noted.output.text.items noted.output.refused noted.notes.items) }
    ensures seen { C.is_honest ≡ true → IfOk result (λ noted.
        ListsOne asked is_held text_held (newest (C.view keep.new.cell).chain).bytes
        noted.output.text.items noted.output.refused noted.notes.items) }
    ensures refused { IfErr result (λ e. IsUnseen e ⊎ (e ≡ out_of_memory)) }
{
    let held = load(keep)?;
    Ok(kept_list(alloc, MemoryKeep::new(held), asked)?)
}
