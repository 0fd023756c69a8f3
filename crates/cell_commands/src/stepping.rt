//! A step of what a cell holds, which is made anew where another's came first, and why none is
//! saved.

ghost use Rattle.std.specs.Prelude.{◌≡◌, ◌<◌, ◌≤◌, ℕ, List, false, true, length, Err};
ghost use Rattle.std.specs.Prelude.{IfErr, IfOk, IfSome, OnOk};
ghost use Rattle.keepers.specs.Crash.{IsWithin};
ghost use Rattle.cells.specs.Calls.{IsNot, Sends};
ghost use Rattle.cells.specs.Chain.{newest};
ghost use Rattle.cells.specs.Keeping.{has_read, swap_of};
ghost use Rattle.cells.specs.Kept.{IsOfLoad, IsOfSave, IsPartOf, IsSettled, IsStepped, IsSwapped};
ghost use Rattle.cells.specs.Kept.{holds};
ghost use Rattle.cell_commands.specs.Faults.{IsUnloaded, IsUnsaved, IsUnstepped};

use crate::cell_fault::CellFault;
use cells::{Cell, CellKeep, Step, TRIES};
use etcd_cell::MAX_VALUE_BYTES;
use keepers::{Keep, KeepFault};
use std::alloc::{AllocError, Global};

/// The bytes that a cell holds.
pub(crate) fn load<C: Cell>(keep: &mut CellKeep<C>) -> Result<Vec<u8>, CellFault>
    ensures sends { C.is_honest ≡ true → Sends (C.view keep.old.cell)
        (IsOfLoad keep.old.holding) (C.view keep.new.cell) }
    ensures value { C.is_honest ≡ true → IfOk result (λ bytes.
        bytes.items ≡ (newest (C.view keep.new.cell).chain).bytes) }
    ensures has { C.is_honest ≡ true →
        OnOk result (keep.new.holding ≡ has_read (newest (C.view keep.new.cell).chain)) }
    ensures there { C.is_honest ≡ true →
        OnOk result (0 < (newest (C.view keep.new.cell).chain).revision) }
    ensures settled { C.is_honest ≡ true → OnOk result
        (IsSettled keep.old.holding (C.view keep.old.cell) (C.view keep.new.cell)) }
    ensures refused { IfErr result IsUnloaded }
{
    match keep.load() {
        Ok(bytes) => Ok(bytes),
        Err(KeepFault::Failed) => Err(CellFault::Unread),
        Err(KeepFault::Memory) => Err(CellFault::from(AllocError)),
    }
}

/// Why a save failed.
fn save_fault(fault: KeepFault, is_conflict: bool) -> CellFault
    ensures unsaved { IsUnsaved result }
    ensures overtaken { result ≡ CellFault.Overtaken → is_conflict ≡ true }
{
    match fault {
        KeepFault::Failed if is_conflict => CellFault::Overtaken,
        KeepFault::Failed => CellFault::Unanswered,
        KeepFault::Memory => CellFault::from(AllocError),
    }
}

/// Saves bytes in place of those that were loaded. Of more than `MAX_VALUE_BYTES` nothing is sent.
pub(crate) fn save<C: Cell>(keep: &mut CellKeep<C>, bytes: &[u8]) -> Result<(), CellFault>
    ensures sends { C.is_honest ≡ true → Sends (C.view keep.old.cell)
        (IsOfSave keep.old.holding bytes.now) (C.view keep.new.cell) }
    ensures same { holds keep.old.holding bytes.now ≡ true → OnOk result
        (keep.new.cell ≡ keep.old.cell) }
    ensures made { C.is_honest ≡ true → holds keep.old.holding bytes.now ≡ false → OnOk result
        (IsSwapped keep.old.holding bytes.now (C.view keep.old.cell) (C.view keep.new.cell)) }
    ensures overtaken { C.is_honest ≡ true → result ≡ Err CellFault.Overtaken →
        IfSome keep.old.holding.has
        (λ v. IsNot (C.view keep.old.cell) (swap_of v bytes.now) (C.view keep.new.cell)) }
    ensures large { MAX_VALUE_BYTES < length bytes.now →
        (result ≡ Err CellFault.TooLarge) × (keep.new ≡ keep.old) }
    ensures refused { IfErr result IsUnsaved }
{
    if bytes.len() > MAX_VALUE_BYTES {
        return Err(CellFault::TooLarge);
    }
    match keep.save(bytes) {
        Ok(()) => Ok(()),
        Err(fault) => Err(save_fault(fault, keep.is_conflict())),
    }
}

/// Makes a step of what the cell holds, and saves it.
fn try_step<C: Cell, S: Step>(
    alloc: Global,
    keep: &mut CellKeep<C>,
    step: &S,
) -> Result<S::Given, CellFault>
    ensures made { IfOk result (λ given. (held : List ℕ) × ((text : List ℕ)
        × S.makes step.now held text given)) }
    ensures stepped { C.is_honest ≡ true → IfOk result (IsStepped (S.makes step.now)
        (C.view keep.old.cell).chain (C.view keep.new.cell).chain) }
    ensures sent { C.is_honest ≡ true → OnOk result
        (IsWithin (C.view keep.new.cell).may_land (C.view keep.old.cell).may_land) }
    ensures overtaken { C.is_honest ≡ true → result ≡ Err CellFault.Overtaken →
        IsWithin (C.view keep.new.cell).may_land (C.view keep.old.cell).may_land }
    ensures grows { C.is_honest ≡ true →
        IsPartOf (C.view keep.old.cell).chain (C.view keep.new.cell).chain }
    ensures rises { C.is_honest ≡ true → (newest (C.view keep.old.cell).chain).revision
        ≤ (newest (C.view keep.new.cell).chain).revision }
    ensures refused { IfErr result IsUnstepped }
{
    let held = load(keep)?;
    let (bytes, given) = step.make(alloc, held.as_slice())?;
    match save(keep, bytes.as_slice()) {
        Ok(()) => Ok(given),
        Err(fault) => {
            drop(given);
            Err(fault)
        }
    }
}

/// Makes a step of what the cell holds, and saves it; where another came first, anew, of what is
/// held then. What is given is of the one that was saved, or of what was held and stays so; no
/// other of its swaps was made or will be. Refuses `Unread` where nothing could be loaded,
/// `Unanswered` where it isn't known whether the step is saved, `Overtaken` where another came
/// first sixteen times, `TooLarge` where the bytes are more than a cell takes, and memory.
pub fn step_in_cell<C: Cell, S: Step>(
    alloc: Global,
    keep: &mut CellKeep<C>,
    step: &S,
) -> Result<S::Given, CellFault>
    // Proved: What is given of a step in a cell was made of some text, of any cell; of an honest
    // one, of the value that was held, which stays or which the step's own replaced, directly and
    // once. Else it is told whether nothing was loaded, or nothing saved.
    // By `made`, `stepped`, `sent`, `rises`, `refused`.
    // Not proved: that a step is tried sixteen times, and why one is told not to be saved.
    ensures made { IfOk result (λ given. (held : List ℕ) × ((text : List ℕ)
        × S.makes step.now held text given)) }
    ensures stepped { C.is_honest ≡ true → IfOk result (IsStepped (S.makes step.now)
        (C.view keep.old.cell).chain (C.view keep.new.cell).chain) }
    ensures sent { C.is_honest ≡ true → OnOk result
        (IsWithin (C.view keep.new.cell).may_land (C.view keep.old.cell).may_land) }
    ensures rises { C.is_honest ≡ true → (newest (C.view keep.old.cell).chain).revision
        ≤ (newest (C.view keep.new.cell).chain).revision }
    ensures refused { IfErr result IsUnstepped }
{
    for _ in 0..TRIES {
        match try_step(alloc, keep, step) {
            Ok(given) => return Ok(given),
            Err(CellFault::Overtaken) => {}
            Err(fault) => return Err(fault),
        }
    }
    Err(CellFault::Overtaken)
}
