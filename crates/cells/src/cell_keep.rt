use crate::cell::Cell;
use crate::holder::Holder;
use crate::sharing;
use crate::swapped::SwapResult;
use keepers::{Keep, KeepFault};
use std::alloc::Global;
use std::marker::Model;

/// A keeper over a cell that others may share (our own). A save swaps what was loaded, or saved
/// last. Where another came first, that is a conflict: `Failed` with `is_conflict` beside it, and
/// the caller loads and makes its step anew. It never answers `Ok` where an answer was lost: it
/// touches the cell, and until that is answered nothing is loaded and nothing saved.
#[derive(Drop)]
pub struct CellKeep<C: Cell> {
    cell: C,
    holder: Holder,
    is_conflict: bool,
    failures: u64,
}

impl<C: Cell> Model for CellKeep<C> {
    ghost use Rattle.cells.specs.Kept.{CellKeepView};

    ghost Value = { CellKeepView C };

    ghost view = { λ a. record {
      cell = a.cell;
      holding = a.holder;
      is_conflict = a.is_conflict;
      count = a.failures;
    } };
}

impl<C: Cell> CellKeep<C> {
    ghost use Rattle.std.specs.Prelude.{◌≡◌, ◌≤◌, false};
    ghost use Rattle.cells.specs.Chain.{no_version};
    ghost use Rattle.cells.specs.Keeping.{has_read, new_holding};
    ghost use Rattle.cells.specs.Kept.{holds};
    ghost use Rattle.keepers.specs.Keeper.{CountRose};

    /// A keeper over this cell, of which no call failed yet. It loads before it saves.
    pub fn over(alloc: Global, cell: C) -> CellKeep<C>
        // Proved: A keeper over a cell begins with nothing read, or with no value, and tells its
        // cell and whether a conflict was told.
        // By `CellKeep::over_new`, `CellKeep::cell`, `CellKeep::is_conflict`.
        ensures { result ≡ record {
          cell = cell;
          holding = new_holding;
          is_conflict = false;
          count =
              0;
        } }
    {
        CellKeep {
            cell,
            holder: Holder::new(alloc),
            is_conflict: false,
            failures: 0,
        }
    }

    /// A keeper over this cell, which holds nothing yet: where it does, the first save is a
    /// conflict.
    pub fn over_new(alloc: Global, cell: C) -> CellKeep<C>
        ensures { result ≡ record {
          cell = cell;
          holding = has_read no_version;
          is_conflict = false;
          count = 0;
        } }
    {
        CellKeep {
            cell,
            holder: Holder::of_nothing(alloc),
            is_conflict: false,
            failures: 0,
        }
    }

    /// Whether the last save was refused because another's came first.
    pub fn is_conflict(&self) -> bool
        ensures { result ≡ self.now.is_conflict }
    {
        self.is_conflict
    }

    /// The cell.
    pub fn cell(&self) -> &C
        ensures { result.now ≡ self.now.cell }
    {
        &self.cell
    }

    /// Counts a call that failed, and is its fault.
    fn fail(&mut self) -> KeepFault
        ensures fault { result ≡ KeepFault.Failed }
        ensures same { self.new ≡ record self.old { count = self.new.count } }
        ensures kept { self.old.count ≤ self.new.count }
        ensures raised { CountRose self.old.count self.new.count }
    {
        self.failures = self.failures.saturating_add(1);
        KeepFault::Failed
    }

    /// Whether what it has is these bytes, and no swap of it is open.
    fn holds(&self, bytes: &[u8]) -> bool
        ensures { result ≡ holds self.now.holding bytes.now }
    {
        match self.holder.has() {
            Some(version) => version.bytes() == bytes && !self.holder.is_open(),
            None => false,
        }
    }
}

impl<C: Cell> Keep for CellKeep<C> {
    ghost use Rattle.std.specs.Prelude.{◌≡◌, ◌<◌, [], false, true};
    ghost use Rattle.std.specs.Prelude.{IfOk, IfSome, IsErrOf, OnErr, OnOk};
    ghost use Rattle.cells.specs.Calls.{IsNot, Sends};
    ghost use Rattle.cells.specs.Chain.{newest};
    ghost use Rattle.cells.specs.Keeping.{has_read, swap_of};
    ghost use Rattle.cells.specs.Kept.{IsOfLoad, IsOfSave, IsSettled, IsSwapped, holds};
    ghost use Rattle.keepers.specs.Keeper.{CountRose, CountsFailure};

    ghost held = { λ _. [] };

    ghost is_honest = { λ _. false };

    ghost place = { λ _. [] };

    ghost is_durable = { false };

    ghost may_leave = { λ _ _. ⊥ };

    ghost moment = { λ _. 0 };

    ghost left_since = { λ _ _ _. ⊥ };

    ghost counts_now = { λ _ _ _ _ now. now };

    ghost only_now = { λ _ _ now. now };

    ghost count = { λ keep. keep.count };

    ghost load_fails = { λ old new. CountRose old.count new.count };

    ghost save_fails = { λ old _ new. CountRose old.count new.count };

    /// Reads what the cell holds. Where a swap of it is open, it touches the cell first, and where
    /// no answer comes to that, nothing is loaded. Refuses `Failed` also where nothing was ever
    /// held.
    fn load(&mut self) -> Result<Vec<u8>, KeepFault>
        // Proved: Whatever a load or a save answers, it sent nothing but a touch of what it had,
        // and a save a swap of that by its bytes.
        // By `sends`; `CellKeep::save`: `sends`.
        ensures sends { C.is_honest ≡ true → Sends (C.view self.old.cell)
            (IsOfLoad self.old.holding) (C.view self.new.cell) }
        // Proved: A load that succeeds gives what is held, once nothing that this keeper sent can
        // be made any more.
        // By `value`, `settled`, `has`, `conflict`, `failures`.
        ensures value { C.is_honest ≡ true → IfOk result (λ bytes.
            (bytes.items ≡ (newest (C.view self.new.cell).chain).bytes)
            × (0 < (newest (C.view self.new.cell).chain).revision)) }
        ensures has { C.is_honest ≡ true →
            OnOk result (self.new.holding ≡ has_read (newest (C.view self.new.cell).chain)) }
        ensures settled { C.is_honest ≡ true → OnOk result
            (IsSettled self.old.holding (C.view self.old.cell) (C.view self.new.cell)) }
        ensures conflict { self.new.is_conflict ≡ false }
        ensures failures { CountsFailure self.old.count self.new.count result }
    {
        self.is_conflict = false;
        if self.failures == u64::MAX {
            return Err(KeepFault::Failed);
        }
        match sharing::load(&mut self.cell, &mut self.holder) {
            Ok(bytes) => Ok(bytes),
            Err(KeepFault::Failed) => Err(self.fail()),
            Err(KeepFault::Memory) => Err(KeepFault::Memory),
        }
    }

    /// Asks for the bytes in place of what was loaded or saved last; where they are that, it asks
    /// nothing. Refuses `Failed` with `is_conflict` where another came first: these bytes aren't
    /// held, and never will be. Any other `Failed` leaves that open, until the next load.
    fn save(&mut self, bytes: &[u8]) -> Result<(), KeepFault>
        ensures sends { C.is_honest ≡ true → Sends (C.view self.old.cell)
            (IsOfSave self.old.holding bytes.now) (C.view self.new.cell) }
        // Proved: A keeper over a cell answers `Ok` to a save only where its swap was made, or
        // where these are the bytes that it has, and then it sends nothing.
        // By `made`, `same`.
        ensures same { holds self.old.holding bytes.now ≡ true →
            (self.new.cell ≡ self.old.cell) × (self.new.holding ≡ self.old.holding) }
        ensures made { C.is_honest ≡ true → holds self.old.holding bytes.now ≡ false →
            OnOk result (IsSwapped self.old.holding bytes.now
            (C.view self.old.cell) (C.view self.new.cell)
            × (self.new.holding ≡ has_read (newest (C.view self.new.cell).chain))) }
        // Proved: A conflict is told where another came first: these bytes were not made, and what
        // they were to replace is held no longer.
        // By `conflict`, `told`.
        ensures conflict { C.is_honest ≡ true → self.new.is_conflict ≡ true →
            IfSome self.old.holding.has
            (λ v. IsNot (C.view self.old.cell) (swap_of v bytes.now) (C.view self.new.cell)) }
        ensures told { self.new.is_conflict ≡ true → IsErrOf result KeepFault.Failed }
        ensures failures { CountsFailure self.old.count self.new.count result }
    {
        self.is_conflict = false;
        if self.failures == u64::MAX {
            return Err(KeepFault::Failed);
        }
        if self.holds(bytes) {
            return Ok(());
        }
        match sharing::save(&mut self.cell, &mut self.holder, bytes) {
            Ok(SwapResult::Made(_)) => Ok(()),
            Ok(SwapResult::Other) => {
                self.is_conflict = true;
                Err(self.fail())
            }
            Ok(SwapResult::Unknown) | Err(KeepFault::Failed) => Err(self.fail()),
            Err(KeepFault::Memory) => Err(KeepFault::Memory),
        }
    }

    fn failures(&self) -> u64 {
        self.failures
    }
}
