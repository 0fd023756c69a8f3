ghost use Rattle.std.specs.Prelude.{◌≡◌, ◌↔◌, true, false, None, Some, Err};
ghost use Rattle.std.specs.Prelude.{IfErr, IfOk, IfSome, IsNone, IsSome, OnErr, OnOk, is_some};
ghost use Rattle.std.specs.Prelude.{option_map};
ghost use Rattle.keepers.specs.declared.keep_fault.KeepFault.TheVariants.{Failed};
ghost use Rattle.cells.specs.Calls.{Goes, Swaps};
ghost use Rattle.cells.specs.Chain.{newest, no_version};
ghost use Rattle.cells.specs.Keeping.{after_swap, after_touch, can_swap, can_touch};
ghost use Rattle.cells.specs.Keeping.{has_read, new_holding, swap_of, touch_of};

use crate::cell::Cell;
use crate::swapped::SwapResult;
use crate::versioned::VersionedValue;
use keepers::KeepFault;
use std::alloc::Global;
use std::marker::Model;

/// One of those that share a cell, as far as it knows that (our own): the value that it read or
/// made last, which is what it swaps. While a swap of it has no answer it is open, and does nothing
/// but touch.
#[derive(Drop)]
pub struct Holder {
    alloc: Global,
    has: Option<VersionedValue>,
    is_open: bool,
}

impl Model for Holder {
    ghost use Rattle.cells.specs.Keeping.{Holding};

    ghost Value = { Holding };

    ghost view = { λ a. record { has = a.has; is_open = a.is_open } };
}

impl Holder {
    /// It has nothing yet.
    pub fn new(alloc: Global) -> Holder
        // Proved: A holder begins with nothing read, or with no value, and tells what it has and
        // whether it is open.
        // By `Holder::of_nothing`, `Holder::has`, `Holder::is_open`.
        ensures { result ≡ new_holding }
    {
        Holder {
            alloc,
            has: None,
            is_open: false,
        }
    }

    /// It has read that nothing was ever held.
    pub fn of_nothing(alloc: Global) -> Holder
        ensures { result ≡ has_read no_version }
    {
        Holder {
            alloc,
            has: Some(VersionedValue::new(0, Vec::new(alloc))),
            is_open: false,
        }
    }

    /// What it read or made last.
    pub fn has(&self) -> Option<&VersionedValue>
        ensures { option_map (λ v. v.now) result ≡ self.now.has }
    {
        self.has.as_ref()
    }

    /// Whether a swap of it has no answer.
    pub fn is_open(&self) -> bool
        ensures { result ≡ self.now.is_open }
    {
        self.is_open
    }

    /// Reads what the cell holds. Refuses `Failed` while it is open, and sends nothing then; and
    /// what the cell does, and then it has nothing.
    pub fn read<C: Cell>(&mut self, cell: &mut C) -> Result<(), KeepFault>
        ensures open { self.old.is_open ≡ true →
            (result ≡ Err Failed) × (self.new ≡ self.old) × (cell.new ≡ cell.old) }
        ensures goes { C.is_honest ≡ true → self.old.is_open ≡ false →
            Goes (C.view cell.old) (C.view cell.new) }
        ensures ok { C.is_honest ≡ true →
            OnOk result (self.new ≡ has_read (newest (C.view cell.new).chain)) }
        ensures has { OnOk result (IsSome self.new.has) }
        ensures closed { self.new.is_open ≡ self.old.is_open }
        ensures err { self.old.is_open ≡ false → OnErr result (self.new ≡ new_holding) }
    {
        if self.is_open {
            return Err(KeepFault::Failed);
        }
        self.has = None;
        self.has = Some(cell.read()?);
        Ok(())
    }

    /// Asks for these bytes in place of what it has. Refuses `Failed` where it has nothing or is
    /// open, and `Memory`: then nothing is sent.
    pub fn swap<C: Cell>(&mut self, cell: &mut C, bytes: &[u8]) -> Result<SwapResult, KeepFault>
        // Proved: A swap is of what was read or made last. Where another came first its holder has
        // nothing then, and reads again; where no answer comes it is open, and does nothing but
        // touch until that is answered.
        // By `failed`, `swaps`, `after`, `err`, `sent`; `Holder::touch`: `some`, `swaps`, `after`,
        // `none`; `Holder::read`: `open`, `ok`, `err`, `goes`, `has`, `closed`.
        ensures err { OnErr result ((self.new ≡ self.old) × (cell.new ≡ cell.old)) }
        ensures failed { (result ≡ Err Failed) ↔ (can_swap self.old ≡ false) }
        ensures sent { OnOk result (can_swap self.old ≡ true) }
        ensures swaps { C.is_honest ≡ true → IfOk result (λ answer. IfSome self.old.has (λ v.
            Swaps (C.view cell.old) (swap_of v bytes.now) (C.view cell.new) answer)) }
        ensures after { IfOk result (λ answer. self.new ≡ after_swap answer bytes.now self.old) }
    {
        let Some(revision) = self.revision_to_swap() else {
            return Err(KeepFault::Failed);
        };
        let copy = Vec::from_slice(self.alloc, bytes)?;
        let answer = cell.swap(revision, bytes);
        self.note_swap(answer, copy);
        Ok(answer)
    }

    /// The revision that it may swap.
    fn revision_to_swap(&self) -> Option<u64>
        ensures some { is_some result ≡ can_swap self.now }
        ensures revision { IfSome result (λ r. option_map (λ v. v.revision) self.now.has ≡ Some r) }
    {
        if self.is_open {
            return None;
        }
        let has = self.has.as_ref()?;
        Some(has.revision())
    }

    /// Notes the answer to a swap by these bytes.
    fn note_swap(&mut self, answer: SwapResult, bytes: Vec<u8>)
        ensures { self.new ≡ after_swap answer bytes.items self.old }
    {
        match answer {
            SwapResult::Made(revision) => self.has = Some(VersionedValue::new(revision, bytes)),
            SwapResult::Other => {
                drop(bytes);
                self.has = None;
            }
            SwapResult::Unknown => {
                drop(bytes);
                self.is_open = true;
            }
        }
    }

    /// Asks for a later revision of what it has, where a swap of it is open. Once that is answered,
    /// the swap was made or never will be, and it has nothing: it reads again.
    pub fn touch<C: Cell>(&mut self, cell: &mut C) -> Option<SwapResult>
        ensures none { IsNone result → (self.new ≡ self.old) × (cell.new ≡ cell.old) }
        ensures some { is_some result ≡ can_touch self.old }
        ensures swaps { C.is_honest ≡ true → IfSome result (λ answer. IfSome self.old.has (λ v.
            Swaps (C.view cell.old) (touch_of v) (C.view cell.new) answer)) }
        ensures after { IfSome result (λ answer. self.new ≡ after_touch answer self.old) }
    {
        let revision = self.revision_to_touch()?;
        let answer = cell.touch(revision);
        self.note_touch(answer);
        Some(answer)
    }

    /// The revision that it may touch.
    fn revision_to_touch(&self) -> Option<u64>
        ensures some { is_some result ≡ can_touch self.now }
        ensures revision { IfSome result (λ r. option_map (λ v. v.revision) self.now.has ≡ Some r) }
    {
        if !self.is_open {
            return None;
        }
        let has = self.has.as_ref()?;
        Some(has.revision())
    }

    /// Notes the answer to a touch.
    fn note_touch(&mut self, answer: SwapResult)
        ensures { self.new ≡ after_touch answer self.old }
    {
        if !matches!(answer, SwapResult::Unknown) {
            self.has = None;
            self.is_open = false;
        }
    }
}
