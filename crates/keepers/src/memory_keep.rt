use crate::keep::Keep;
use crate::keep_fault::KeepFault;
use std::marker::Model;

/// A keeper in memory. No call of it fails, but for want of memory (our own).
#[derive(Drop)]
pub struct MemoryKeep {
    bytes: Vec<u8>,
}

impl Model for MemoryKeep {
    ghost use Rattle.std.specs.Prelude.{ℕ, List};

    ghost Value = { List ℕ };

    ghost view = { λ keep. keep.bytes.items };
}

impl MemoryKeep {
    ghost use Rattle.std.specs.Prelude.{◌≡◌};

    /// A keeper that holds these bytes, and goes on to hold its value on their allocator.
    pub fn new(bytes: Vec<u8>) -> MemoryKeep
        ensures { result ≡ bytes.items }
    {
        MemoryKeep { bytes }
    }
}

impl Keep for MemoryKeep {
    ghost use Rattle.std.specs.Prelude.{◌≡◌, [], false, true, IfOk, OnOk, OnErr, IfErr};

    ghost held = { λ keep. keep };

    ghost is_honest = { λ _. true };

    ghost place = { λ _. [] };

    ghost is_durable = { false };

    ghost may_leave = { λ _ _. ⊥ };

    ghost moment = { λ _. 0 };

    ghost left_since = { λ _ _ _. ⊥ };

    ghost counts_now = { λ _ _ _ _ now. now };

    ghost only_now = { λ _ _ now. now };

    ghost count = { λ _. 0 };

    ghost load_fails = { λ _ _. ⊥ };

    ghost save_fails = { λ _ _ _. ⊥ };

    fn load(&mut self) -> Result<Vec<u8>, KeepFault>
        // Proved: A keeper in memory fails for want of memory alone.
        // By `ok`, `stays`, `only`; `MemoryKeep::save`: `ok`, `err`, `only`; `MemoryKeep::new`,
        // `MemoryKeep::failures`.
        ensures ok { IfOk result (λ v. v.items ≡ self.old) }
        ensures stays { self.new ≡ self.old }
        ensures only { IfErr result (λ fault. fault ≡ KeepFault.Memory) }
    {
        Ok(Vec::from_slice(*self.bytes.allocator(), self.bytes.as_slice())?)
    }

    fn save(&mut self, bytes: &[u8]) -> Result<(), KeepFault>
        ensures ok { OnOk result (self.new ≡ bytes.now) }
        ensures err { OnErr result (self.new ≡ self.old) }
        ensures only { IfErr result (λ fault. fault ≡ KeepFault.Memory) }
    {
        self.bytes = Vec::from_slice(*self.bytes.allocator(), bytes)?;
        Ok(())
    }

    fn failures(&self) -> u64
        ensures { result ≡ 0 }
    {
        0
    }
}
