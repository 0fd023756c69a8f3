//! Many holders of one cell.

ghost use Rattle.std.specs.Prelude.{◌≡◌, ◌<◌, true, length, All, IfOk};
ghost use Rattle.cells.specs.Chain.{Grows, Swap};
ghost use Rattle.cells.specs.Keeping.{new_holding};
ghost use Rattle.cells.specs.Runs.{Acts, IsOfHolder, IsRising, history_of};

use crate::act::Act;
use crate::call::Call;
use crate::cell::Cell;
use crate::holder::Holder;
use crate::versioned::VersionedValue;
use std::alloc::{AllocError, Global};

/// One call of a holder.
fn act<C: Cell>(holder: &mut Holder, cell: &mut C, act: &Act)
    ensures { C.is_honest ≡ true →
        Acts act.now holder.old holder.new (C.view cell.old) (C.view cell.new) }
{
    match act {
        Act::Read => {
            let _ = holder.read(cell);
        }
        Act::Swap(bytes) => {
            let _ = holder.swap(cell, bytes.as_slice());
        }
        Act::Touch => {
            let _ = holder.touch(cell);
        }
    }
}

/// What a holder has.
fn copy_of(holder: &Holder) -> Result<Option<VersionedValue>, AllocError>
    ensures { IfOk result (λ has. has ≡ holder.now.has) }
{
    match holder.has() {
        Some(version) => Ok(Some(version.copy()?)),
        None => Ok(None),
    }
}

/// So many holders.
fn idle_holders(alloc: Global, count: usize) -> Result<Vec<Holder>, AllocError>
    ensures count { IfOk result (λ holders. length holders.items ≡ count) }
    ensures idle { IfOk result (λ holders. All (λ h. h ≡ new_holding) holders.items) }
{
    let mut holders = Vec::new(alloc);
    for _ in 0..count {
        holders.push(Holder::new(alloc))?;
    }
    Ok(holders)
}

/// The calls of so many holders of a cell, in any order, each of which has nothing first. Answers
/// what the holder has after each call. Where no swap of anybody else may be made, the values that
/// the cell held meanwhile are one chain: each is by a swap, or a touch, of a holder that had the
/// one before, as it read or made it.
pub fn run<C: Cell>(
    alloc: Global,
    cell: &mut C,
    count: usize,
    calls: &[Call],
) -> Result<Vec<Option<VersionedValue>>, AllocError>
    // Wants: calls of holders that are there.
    requires { All (λ call. call.holder < count) calls.now }
    // Proved: Several holders share a cell, each of whose calls, a read, a swap or a touch, comes
    // at any time, also where answers are lost and what was sent is made later, by others' calls:
    // the values that the cell held meanwhile are one chain, each by a swap or a touch of a holder
    // that had the one before, as it read or made it, if no swap of anybody else may be made.
    // By `chain`, `told`.
    ensures told { IfOk result (λ told. length told.items ≡ length calls.now) }
    ensures chain { C.is_honest ≡ true → IfOk result (λ told. IsRising (C.view cell.old).chain
        → ((s : Swap) → (C.view cell.old).may_land s → ⊥)
        → Grows (IsOfHolder (history_of calls.now told.items))
        (C.view cell.old).chain (C.view cell.new).chain) }
{
    let mut holders = idle_holders(alloc, count)?;
    let mut told = Vec::new(alloc);
    for call in calls {
        let holder = &mut holders[call.holder];
        act(holder, cell, &call.act);
        told.push(copy_of(holder)?)?;
    }
    Ok(told)
}
