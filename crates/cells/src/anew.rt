//! A step of what a cell holds, which is made anew where another's came first.

ghost use Rattle.std.specs.Prelude.{◌≡◌, true, IfOk, OnOk};
ghost use Rattle.keepers.specs.Crash.{IsWithin};
ghost use Rattle.cells.specs.Kept.{IsPartOf, IsStepped};

use crate::cell::Cell;
use crate::cell_keep::CellKeep;
use crate::step::Step;
use keepers::{Keep, KeepFault};
use std::alloc::Global;

/// How often a step is made at most.
pub const TRIES: u32 = 16;

/// Makes a step of what the cell holds, and saves it. Refuses `Failed` where it could not be loaded
/// or saved, with `is_conflict` where another came first; and `Memory`.
fn step_once<C: Cell, S: Step>(
    alloc: Global,
    keep: &mut CellKeep<C>,
    step: &S,
) -> Result<S::Given, KeepFault>
    ensures stepped { C.is_honest ≡ true → IfOk result (IsStepped (S.makes step.now)
        (C.view keep.old.cell).chain (C.view keep.new.cell).chain) }
    ensures sent { C.is_honest ≡ true → OnOk result
        (IsWithin (C.view keep.new.cell).may_land (C.view keep.old.cell).may_land) }
    ensures conflict { C.is_honest ≡ true → keep.new.is_conflict ≡ true →
        IsWithin (C.view keep.new.cell).may_land (C.view keep.old.cell).may_land }
    ensures grows { C.is_honest ≡ true →
        IsPartOf (C.view keep.old.cell).chain (C.view keep.new.cell).chain }
{
    let held = keep.load()?;
    let (bytes, given) = step.make(alloc, held.as_slice())?;
    match keep.save(bytes.as_slice()) {
        Ok(()) => Ok(given),
        Err(fault) => {
            drop(given);
            Err(fault)
        }
    }
}

/// Makes a step of what the cell holds, and saves it; where another came first, anew, of what is
/// held then. What is given is of the one that was saved, or of what was held and stays so; no
/// other of its swaps was made or will be. Refuses `Failed` where the cell could not be loaded or
/// saved, and where another came first sixteen times, with `is_conflict`; and `Memory`.
pub fn step_anew<C: Cell, S: Step>(
    alloc: Global,
    keep: &mut CellKeep<C>,
    step: &S,
) -> Result<S::Given, KeepFault>
    // Proved: A step that is made anew where another came first is, once it succeeds, of the value
    // that was held, which stays or which the step's own replaced, directly and once.
    // By `stepped`, `sent`.
    // Not proved: that a step is tried sixteen times, and that a load, a save or a step succeeds
    // where answers come.
    ensures stepped { C.is_honest ≡ true → IfOk result (IsStepped (S.makes step.now)
        (C.view keep.old.cell).chain (C.view keep.new.cell).chain) }
    ensures sent { C.is_honest ≡ true → OnOk result
        (IsWithin (C.view keep.new.cell).may_land (C.view keep.old.cell).may_land) }
{
    for _ in 0..TRIES {
        match step_once(alloc, keep, step) {
            Ok(given) => return Ok(given),
            Err(fault) => {
                if !keep.is_conflict() {
                    return Err(fault);
                }
            }
        }
    }
    Err(KeepFault::Failed)
}
