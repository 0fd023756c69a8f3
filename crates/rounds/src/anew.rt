//! All that comes to the controller in a cell that others may share, with one save.

ghost use Rattle.std.specs.Prelude.{◌≡◌, ◌≤◌, true, length, IfErr, IfOk, OnOk};
ghost use Rattle.streams.specs.declared.refused.Refused.TheVariants.{Core};
ghost use Rattle.cells.specs.Kept.{IsPartOf, IsStepped};
ghost use Rattle.keepers.specs.Crash.{IsWithin};
ghost use Rattle.rounds.specs.Anew.{AreCopies, CellTakesNone, IsCopy, IsTaken, TakesText};

use crate::round_keep::{Given, RoundKeep};
use cells::{Cell, CellKeep, TRIES};
use keepers::{Keep, KeepFault, MemoryKeep};
use std::alloc::{AllocError, Global};
use stored_state::{Addressee, Coming, SavedState, take_all};
use streams::Refused;
use ticket_items::{Duplicate, Refusal};

/// A copy of what comes.
fn copy_of(alloc: Global, coming: &Coming) -> Result<Coming, AllocError>
    ensures { IfOk result (IsCopy coming.now) }
{
    match coming {
        Coming::Message(message) => Ok(Coming::Message(message.copy(alloc)?)),
        Coming::Order(text) => Ok(Coming::Order(Vec::from_slice(alloc, text.as_slice())?)),
        Coming::Neither(refusal) => Ok(Coming::Neither(*refusal)),
    }
}

/// Copies of all that comes, in turn.
fn copies_of(alloc: Global, all: &[Coming]) -> Result<Vec<Coming>, AllocError>
    ensures { IfOk result (λ copied. AreCopies all.now copied.items) }
{
    let mut copied = Vec::with_capacity(alloc, all.len())?;
    for coming in all {
        let copy = copy_of(alloc, coming)?;
        copied.push(copy)?;
    }
    Ok(copied)
}

/// Why a round gives nothing out where this call of its keeper fails, which else refuses so.
fn refused_for(fault: KeepFault, refused: Refused) -> Refused
    ensures failed { fault ≡ KeepFault.Failed → result ≡ refused }
    ensures memory { fault ≡ KeepFault.Memory → result ≡ Core Refusal.Memory }
{
    match fault {
        KeepFault::Failed => refused,
        KeepFault::Memory => Refused::Core(Refusal::Memory),
    }
}

/// Hands the controller that a cell holds all that comes, as `take_all` does, and tries once.
/// Refuses `SaveFailed` also where another's step came first, with `is_conflict`.
fn take_once<C: Cell>(
    alloc: Global,
    keep: &mut CellKeep<C>,
    last: Option<SavedState>,
    to: Addressee<'_>,
    all: Vec<Coming>,
    at: u64,
) -> Result<Given, Refused>
    ensures taken { IfOk result
        (λ taken. IsTaken to.entry at all.items (taken.0.items, taken.1)) }
    ensures each { IfOk result (λ taken. length taken.0.items ≡ length all.items) }
    ensures stepped { C.is_honest ≡ true → IfOk result (λ taken.
        IsStepped (TakesText to.entry at all.items) (C.view keep.old.cell).chain
        (C.view keep.new.cell).chain (taken.0.items, taken.1)) }
    ensures sent { C.is_honest ≡ true → OnOk result
        (IsWithin (C.view keep.new.cell).may_land (C.view keep.old.cell).may_land) }
    ensures conflict { C.is_honest ≡ true → keep.new.is_conflict ≡ true →
        IsWithin (C.view keep.new.cell).may_land (C.view keep.old.cell).may_land }
    ensures grows { C.is_honest ≡ true →
        IsPartOf (C.view keep.old.cell).chain (C.view keep.new.cell).chain }
    ensures counted { keep.old.count ≤ keep.new.count }
    ensures refused { IfErr result
        (CellTakesNone to.entry at all.items keep.old.count keep.new.count) }
{
    let bytes = match keep.load() {
        Ok(bytes) => bytes,
        Err(fault) => {
            drop(last);
            drop(all);
            return Err(refused_for(fault, Refused::LoadFailed));
        }
    };
    let mut held = MemoryKeep::new(bytes);
    let (given, saved) = take_all(alloc, &mut held, last, to, all, at)?;
    let Some(saved) = saved else {
        return Ok((given, None));
    };
    match keep.save(saved.text()) {
        Ok(()) => Ok((given, Some(saved))),
        Err(fault) => {
            drop(given);
            drop(saved);
            Err(refused_for(fault, Refused::SaveFailed))
        }
    }
}

/// The same; where another's step came first, anew, of what is held then, sixteen times at most.
pub fn take_anew<C: Cell>(
    alloc: Global,
    keep: &mut CellKeep<C>,
    last: Option<SavedState>,
    to: Addressee<'_>,
    all: Vec<Coming>,
    at: u64,
) -> Result<Given, Refused>
    // Proved: All that comes in a round to a controller in a cell that others share comes, once it
    // succeeds, to the one whose text was held, which stays or which the text of the state behind
    // the last replaced, directly and once; no other swap of this round was made or will be. Each
    // is given what it brought about in that one round.
    // By `taken`, `each`, `stepped`, `sent`.
    // Not proved: that it is tried sixteen times.
    ensures taken { IfOk result
        (λ taken. IsTaken to.entry at all.items (taken.0.items, taken.1)) }
    ensures each { IfOk result (λ taken. length taken.0.items ≡ length all.items) }
    ensures stepped { C.is_honest ≡ true → IfOk result (λ taken.
        IsStepped (TakesText to.entry at all.items) (C.view keep.old.cell).chain
        (C.view keep.new.cell).chain (taken.0.items, taken.1)) }
    ensures sent { C.is_honest ≡ true → OnOk result
        (IsWithin (C.view keep.new.cell).may_land (C.view keep.old.cell).may_land) }
    ensures refused { IfErr result
        (CellTakesNone to.entry at all.items keep.old.count keep.new.count) }
{
    let mut last = last;
    for _ in 1..TRIES {
        let copied = copies_of(alloc, all.as_slice())?;
        match take_once(alloc, keep, last.take(), to, copied, at) {
            Ok(given) => return Ok(given),
            Err(refused) => {
                if !keep.is_conflict() {
                    return Err(refused);
                }
            }
        }
    }
    take_once(alloc, keep, None, to, all, at)
}

impl<C: Cell> RoundKeep for CellKeep<C> {
    /// Where another's step came first, all this comes to what is held then, sixteen times at most.
    fn take_round(
        &mut self,
        alloc: Global,
        last: Option<SavedState>,
        to: Addressee<'_>,
        all: Vec<Coming>,
        at: u64,
    ) -> Result<Given, Refused> {
        take_anew(alloc, self, last, to, all, at)
    }
}
