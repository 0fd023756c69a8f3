//! What a keeper does with its cell.

ghost use Rattle.std.specs.Prelude.{◌≡◌, ◌<◌, false, true, IfOk, OnErr, OnOk};
ghost use Rattle.cells.specs.Calls.{Goes, Sends};
ghost use Rattle.cells.specs.Chain.{newest};
ghost use Rattle.cells.specs.Keeping.{has_read};
ghost use Rattle.cells.specs.Kept.{IsOfLoad, IsOfSave, IsSettled, SavesAs};

use crate::cell::Cell;
use crate::holder::Holder;
use crate::swapped::SwapResult;
use keepers::KeepFault;

/// Touches what a holder has, where a swap of it is open.
fn settle<C: Cell>(cell: &mut C, holder: &mut Holder)
    ensures sends { C.is_honest ≡ true →
        Sends (C.view cell.old) (IsOfLoad holder.old) (C.view cell.new) }
    ensures settled { C.is_honest ≡ true → holder.new.is_open ≡ false →
        IsSettled holder.old (C.view cell.old) (C.view cell.new) }
{
    let _ = holder.touch(cell);
}

/// Reads what the cell holds. Refuses `Failed` where that is nothing too.
fn read_held<C: Cell>(cell: &mut C, holder: &mut Holder) -> Result<Vec<u8>, KeepFault>
    ensures goes { C.is_honest ≡ true → Goes (C.view cell.old) (C.view cell.new) }
    ensures value { C.is_honest ≡ true → IfOk result (λ bytes.
        (bytes.items ≡ (newest (C.view cell.new).chain).bytes)
        × (0 < (newest (C.view cell.new).chain).revision)) }
    ensures has { C.is_honest ≡ true →
        OnOk result (holder.new ≡ has_read (newest (C.view cell.new).chain)) }
    ensures closed { OnOk result (holder.old.is_open ≡ false) }
{
    holder.read(cell)?;
    match holder.has() {
        Some(version) if version.revision() > 0 => Ok(version.copy_bytes()?),
        _ => Err(KeepFault::Failed),
    }
}

/// Reads what the cell holds, once no swap of the holder is open.
pub(crate) fn load<C: Cell>(cell: &mut C, holder: &mut Holder) -> Result<Vec<u8>, KeepFault>
    ensures sends { C.is_honest ≡ true →
        Sends (C.view cell.old) (IsOfLoad holder.old) (C.view cell.new) }
    ensures value { C.is_honest ≡ true → IfOk result (λ bytes.
        (bytes.items ≡ (newest (C.view cell.new).chain).bytes)
        × (0 < (newest (C.view cell.new).chain).revision)) }
    ensures has { C.is_honest ≡ true →
        OnOk result (holder.new ≡ has_read (newest (C.view cell.new).chain)) }
    ensures settled { C.is_honest ≡ true →
        OnOk result (IsSettled holder.old (C.view cell.old) (C.view cell.new)) }
{
    settle(cell, holder);
    read_held(cell, holder)
}

/// Swaps what the holder has by these bytes, and touches where no answer comes. Nothing is sent
/// where it refuses.
pub(crate) fn save<C: Cell>(
    cell: &mut C,
    holder: &mut Holder,
    bytes: &[u8],
) -> Result<SwapResult, KeepFault>
    ensures sends { C.is_honest ≡ true →
        Sends (C.view cell.old) (IsOfSave holder.old bytes.now) (C.view cell.new) }
    ensures told { C.is_honest ≡ true → IfOk result
        (SavesAs holder.old bytes.now (C.view cell.old) (C.view cell.new) holder.new) }
    ensures err { OnErr result ((cell.new ≡ cell.old) × (holder.new ≡ holder.old)) }
{
    let answer = holder.swap(cell, bytes)?;
    match answer {
        SwapResult::Unknown => {
            settle(cell, holder);
            Ok(SwapResult::Unknown)
        }
        SwapResult::Made(revision) => Ok(SwapResult::Made(revision)),
        SwapResult::Other => Ok(SwapResult::Other),
    }
}
