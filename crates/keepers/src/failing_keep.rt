use crate::keep::Keep;
use crate::keep_fault::KeepFault;
use std::marker::Model;

/// A keeper in memory of which one call fails, for tests of what stands on keepers (our own). Loads
/// and saves count as its calls, from 1 on; a call that is refused memory changes nothing and
/// doesn't count.
#[derive(Drop)]
pub struct FailingKeep {
    bytes: Vec<u8>,
    calls: u64,
    k: u64,
    leaves_new: bool,
    failures: u64,
}

impl Model for FailingKeep {
    ghost use Rattle.std.specs.Prelude.{◌≡◌, ◌<◌, ◌≤◌, ℕ, List};
    ghost use Rattle.keepers.specs.Failing.{FailingView};

    ghost Value = { FailingView };

    ghost view = { λ keep. record {
      held = keep.bytes.items;
      calls = keep.calls;
      k = keep.k;
      leaves_new = keep.leaves_new;
      count = keep.failures;
    } };

    ghost invariant = { λ keep.
        (keep.failures ≤ 1) × (keep.calls < keep.k → keep.failures ≡ 0) };
}

impl FailingKeep {
    ghost use Rattle.std.specs.Prelude.{◌≡◌, true};
    ghost use Rattle.keepers.specs.Failing.{after_failure, is_due};

    /// A keeper that holds these bytes, and of which no call was made yet. Its k-th call will fail,
    /// none if k is 0; and if that is a save, it leaves the new value or the old.
    pub fn new(bytes: Vec<u8>, k: u64, leaves_new: bool) -> FailingKeep
        ensures { result ≡ record {
          held = bytes.items;
          calls = 0;
          k = k;
          leaves_new = leaves_new;
          count = 0;
        } }
    {
        FailingKeep {
            bytes,
            calls: 0,
            k,
            leaves_new,
            failures: 0,
        }
    }

    /// Whether the next call is the one that fails.
    fn is_due(&self) -> bool
        ensures { result ≡ is_due self.now }
    {
        self.k.checked_sub(1) == Some(self.calls)
    }

    /// Counts the call that fails, and is its fault.
    fn fail(&mut self) -> KeepFault
        requires { is_due self.old ≡ true }
        ensures fault { result ≡ KeepFault.Failed }
        ensures counted { self.new ≡ after_failure self.old }
    {
        self.calls += 1;
        self.failures += 1;
        KeepFault::Failed
    }
}

impl Keep for FailingKeep {
    ghost use Rattle.std.specs.Prelude.{◌≡◌, ◌&&◌, [], not, false, true, IsErrOf};
    ghost use Rattle.keepers.specs.Failing.{LoadFails, LoadsOrFails, SaveFails, SavesOrFails};
    ghost use Rattle.keepers.specs.Failing.{is_due};
    ghost use Rattle.keepers.specs.Keeper.{CountsFailure, Loads, Saves};

    ghost held = { λ keep. keep.held };

    ghost is_honest = { λ _. true };

    ghost place = { λ _. [] };

    ghost is_durable = { false };

    ghost may_leave = { λ _ _. ⊥ };

    ghost moment = { λ _. 0 };

    ghost left_since = { λ _ _ _. ⊥ };

    ghost counts_now = { λ _ _ _ _ now. now };

    ghost only_now = { λ _ _ now. now };

    ghost count = { λ keep. keep.count };

    ghost load_fails = { LoadFails };

    ghost save_fails = { SaveFails };

    fn load(&mut self) -> Result<Vec<u8>, KeepFault>
        // Proved: The keeper for tests fails at its k-th call alone; one that is refused memory
        // isn't counted.
        // By `loads`, `value`, `held`, `failures`; `FailingKeep::save`: `saves`, `held`,
        // `failures`, `needs_no_memory`; `FailingKeep::new`.
        ensures loads { LoadsOrFails self.old self.new result }
        ensures value { Loads self.old.held result }
        ensures held { self.new.held ≡ self.old.held }
        ensures failures { CountsFailure self.old.count self.new.count result }
    {
        if self.is_due() {
            return Err(self.fail());
        }
        let bytes = Vec::from_slice(*self.bytes.allocator(), self.bytes.as_slice())?;
        self.calls = self.calls.saturating_add(1);
        Ok(bytes)
    }

    fn save(&mut self, bytes: &[u8]) -> Result<(), KeepFault>
        ensures saves { SavesOrFails self.old bytes.now self.new result }
        ensures needs_no_memory { is_due self.old && not self.old.leaves_new ≡ true →
            IsErrOf result KeepFault.Failed }
        ensures held { Saves self.old.held bytes.now self.new.held result }
        ensures failures { CountsFailure self.old.count self.new.count result }
    {
        let is_due = self.is_due();
        if !is_due || self.leaves_new {
            self.bytes = Vec::from_slice(*self.bytes.allocator(), bytes)?;
        }
        if is_due {
            return Err(self.fail());
        }
        self.calls = self.calls.saturating_add(1);
        Ok(())
    }

    fn failures(&self) -> u64 {
        self.failures
    }
}
