ghost use Rattle.std.specs.Prelude.{◌≡◌, ◌≤◌, Some, IfSome, IsNone};
ghost use Rattle.keepers.specs.InMemory.{IsFrom, contents};
ghost use Rattle.keepers.specs.Keeper.{CountRose};

use crate::cut::Cut;
use crate::file_keep::FileKeep;
use crate::keep::Keep;
use crate::keep_fault::KeepFault;
use crate::memory_disk::MemoryDisk;
use std::marker::Model;

/// A keeper in a file of disks in memory, for tests (our own). Each save is one of a program of its
/// own, over a disk that begins with what the one before left, and may be cut off at any call of
/// that disk. Then the file is what a crash at some moment of the save might have left.
#[derive(Drop)]
pub struct CutKeep {
    bytes: Vec<u8>,
    cuts: Vec<Cut>,
    saves: usize,
    failures: u64,
}

impl Model for CutKeep {
    ghost use Rattle.keepers.specs.Cut.{CutView};

    ghost Value = { CutView };

    ghost view = { λ keep. record { held = keep.bytes.items; count = keep.failures } };
}

impl CutKeep {
    /// A keeper whose file has these bytes, and whose saves are cut off so, the first by the first.
    /// No save behind these is.
    pub fn new(bytes: Vec<u8>, cuts: Vec<Cut>) -> CutKeep
        ensures { result ≡ record { held = bytes.items; count = 0 } }
    {
        CutKeep {
            bytes,
            cuts,
            saves: 0,
            failures: 0,
        }
    }

    /// Where the next save is cut off.
    fn next_cut(&mut self) -> Cut
        ensures { self.new ≡ self.old }
    {
        let place = self.saves;
        self.saves = place.saturating_add(1);
        match self.cuts.get(place) {
            Some(cut) => *cut,
            None => Cut { call: 0, left: 0 },
        }
    }

    /// Its file is what a crash left then, and a failure is counted.
    fn fail(&mut self, left: Option<Vec<u8>>)
        ensures none { IsNone left → self.new.held ≡ self.old.held }
        ensures some { IfSome left (λ bytes. self.new.held ≡ bytes.items) }
        ensures raised { CountRose self.old.count self.new.count }
        ensures kept { self.old.count ≤ self.new.count }
    {
        self.failures = self.failures.saturating_add(1);
        if let Some(bytes) = left {
            self.bytes = bytes;
        }
    }
}

/// What stands at a place of all that a crash might have left.
fn left_at(mut all: Vec<Option<Vec<u8>>>, place: usize) -> Option<Vec<u8>>
    ensures { IfSome result (λ bytes. IsFrom (contents all.items) 0 (Some bytes.items)) }
{
    if place < all.len() {
        all.swap_remove(place)
    } else {
        None
    }
}

impl Keep for CutKeep {
    ghost use Rattle.std.specs.Prelude.{◌≡◌, [], false, true, OnOk, IsErrOf};
    ghost use Rattle.keepers.specs.Cut.{IsCutSave};
    ghost use Rattle.keepers.specs.Keeper.{CountsFailure, Loads};

    ghost held = { λ keep. keep.held };

    ghost is_honest = { λ _. true };

    ghost place = { λ _. [] };

    ghost is_durable = { false };

    ghost may_leave = { λ _ _. ⊥ };

    ghost moment = { λ _. 0 };

    ghost left_since = { λ _ _ _. ⊥ };

    ghost counts_now = { λ _ _ _ _ now. now };

    ghost only_now = { λ _ _ now. now };

    ghost count = { λ keep. keep.count };

    ghost load_fails = { λ old new. new ≡ old };

    ghost save_fails = { IsCutSave };

    fn load(&mut self) -> Result<Vec<u8>, KeepFault>
        ensures value { Loads self.old.held result }
        ensures stays { self.new ≡ self.old }
        ensures failures { CountsFailure self.old.count self.new.count result }
    {
        if self.failures == u64::MAX {
            return Err(KeepFault::Failed);
        }
        Ok(Vec::from_slice(*self.bytes.allocator(), self.bytes.as_slice())?)
    }

    fn save(&mut self, bytes: &[u8]) -> Result<(), KeepFault>
        // Proved: A keeper whose saves are cut off, for tests, is honest: a save that was cut off
        // leaves the old value or the new, since a crash at any moment of it does.
        // By `ok`, `cut`, `memory`, `failures`; `CutKeep::load`: `value`, `stays`, `failures`;
        // `CutKeep::new`.
        ensures ok { OnOk result (self.new ≡ record self.old { held = bytes.now }) }
        ensures cut { IsErrOf result KeepFault.Failed → IsCutSave self.old bytes.now self.new }
        ensures memory { IsErrOf result KeepFault.Memory → self.new ≡ self.old }
        ensures failures { CountsFailure self.old.count self.new.count result }
    {
        if self.failures == u64::MAX {
            return Err(KeepFault::Failed);
        }
        let alloc = *self.bytes.allocator();
        let new = Vec::from_slice(alloc, bytes)?;
        let old = Vec::from_slice(alloc, self.bytes.as_slice())?;
        let cut = self.next_cut();
        let disk = MemoryDisk::new(alloc, Some(old), cut.call, true)?;
        let mut keep = FileKeep::over(disk, false);
        match keep.save(bytes) {
            Ok(()) => {
                self.bytes = new;
                Ok(())
            }
            Err(_) => {
                self.fail(left_at(keep.into_disk().into_left(), cut.left));
                Err(KeepFault::Failed)
            }
        }
    }

    fn failures(&self) -> u64 {
        self.failures
    }
}
