//! A cell that is lent, so that it can be looked at afterwards.

use cells::{Cell, SwapResult, VersionedValue};
use keepers::KeepFault;

/// A cell that another has.
#[derive(Drop)]
pub struct LentCell<'a, C: Cell> {
    cell: &'a mut C,
}

impl<'a, C: Cell> LentCell<'a, C> {
    /// The cell, as long as it is lent.
    pub fn new(cell: &'a mut C) -> LentCell<'a, C> {
        LentCell { cell }
    }
}

impl<'a, C: Cell> Cell for LentCell<'a, C> {
    ghost is_honest = { C.is_honest };

    ghost view = { λ lent. C.view lent.cell.now };

    fn read(&mut self) -> Result<VersionedValue, KeepFault> {
        self.cell.read()
    }

    fn swap(&mut self, revision: u64, bytes: &[u8]) -> SwapResult {
        self.cell.swap(revision, bytes)
    }

    fn touch(&mut self, revision: u64) -> SwapResult {
        self.cell.touch(revision)
    }
}
