ghost use Rattle.std.specs.Prelude.{◌≡◌, ◌≤◌, ℕ, List, Bool, true, Option, Some, OnOk, IsErrOf};
ghost use Rattle.keepers.specs.Crash.{IsWithin, LeavesOnly, Only};
ghost use Rattle.keepers.specs.Keeper.{CountsFailure, Loads, Saves};
ghost use Rattle.keepers.specs.Saved.{IsOldOrNew};

use crate::keep_fault::KeepFault;

/// What keeps one value of bytes, as the state of a controller from one run to the next (our own).
/// All that is promised of the value holds for a keeper that is honest, as one is or isn't from the
/// first call to the last: memory is, and a file is where its disk is, which no contract can tell
/// of a system's. A keeper that is durable says as well what a crash of the system may leave; to
/// none it leaves nothing, as where a first save has yet to make a file. Each keeper says how its
/// calls fail, and counts its failures, so that a contract above can say of any keeper that it
/// failed.
pub trait Keep: Drop {
    /// The value, as a load gives it.
    ghost held: { Self → List ℕ };

    /// Whether anything is promised of the value.
    ghost is_honest: { Self → Bool };

    /// The place of the value, as the path of a file is; of no bytes where it has none. No call
    /// changes it.
    ghost place: { Self → List ℕ };

    /// Whether anything is promised of what a crash leaves.
    ghost is_durable: { Bool };

    /// What a crash at this moment may leave of the value.
    ghost may_leave: { Self → Option (List ℕ) → Type 0 };

    /// The moment, as a number that doesn't fall.
    ghost moment: { Self → ℕ };

    /// What a crash at some moment from that one on might have left, in a call or between two.
    ghost left_since: { Self → ℕ → Option (List ℕ) → Type 0 };

    /// How many calls failed.
    ghost count: { Self → ℕ };

    /// A load that failed, from the keeper before it to the one after it.
    ghost load_fails: { Self → Self → Type 0 };

    /// A save of these bytes that failed, from the keeper before it to the one after it.
    ghost save_fails: { Self → List ℕ → Self → Type 0 };

    /// The value. A crash meanwhile leaves what it might have left before. Refuses `Failed` where
    /// it could not be read, and then counts a failure, and `Memory`. Once 2^64 - 1 failures were
    /// counted, it fails and counts no more.
    fn load(&mut self) -> Result<Vec<u8>, KeepFault>
        // Proved: A load that succeeds gives the value, and none changes it.
        // By `value`, `held`, `honest`.
        ensures value { is_honest self.old ≡ true → Loads (held self.old) result }
        ensures held { is_honest self.old ≡ true → held self.new ≡ held self.old }
        ensures honest { is_honest self.new ≡ is_honest self.old }
        // Proved: No call changes the place of what is kept.
        // By `place`; `Keep::save`: `place`.
        ensures place { place self.new ≡ place self.old }
        ensures crash { is_durable ≡ true → IsWithin (may_leave self.new) (may_leave self.old) }
        ensures any_moment { is_durable ≡ true →
            LeavesOnly moment left_since self.old self.new (may_leave self.old) }
        // Proved: A call fails only as its keeper may, and then counts it; once 2^64 - 1 were
        // counted, each fails.
        // By `fails`, `failures`; `Keep::save`: `fails`, `failures`; `Keep::failures`.
        ensures fails { IsErrOf result KeepFault.Failed → load_fails self.old self.new }
        ensures failures { CountsFailure (count self.old) (count self.new) result };

    /// Takes the bytes as the value, in place of the one before: from then on each crash leaves
    /// them. A crash at any moment of the save leaves what one before it might have left, or these
    /// bytes, whole. Refuses `Failed` where they could not be written, and then counts a failure,
    /// and the value is the old or the new; and `Memory`, and then the value is the old. Once
    /// 2^64 - 1 failures were counted, it fails and counts no more.
    fn save(&mut self, bytes: &[u8]) -> Result<(), KeepFault>
        // Proved: A save that succeeds keeps the new value, one that fails the old or the new, one
        // without memory the old.
        // By `held`, `honest`.
        ensures held { is_honest self.old ≡ true →
            Saves (held self.old) bytes.now (held self.new) result }
        ensures honest { is_honest self.new ≡ is_honest self.old }
        ensures place { place self.new ≡ place self.old }
        // Proved: Of a keeper that is durable: behind a save that succeeds each crash leaves the
        // new value; and a crash at any moment of a save leaves what one before it might have
        // left, or the new value, whole, whether the save succeeds or not.
        // By `durable`, `any_moment`; `Keep::load`: `crash`, `any_moment`; `Keep::counts_now`,
        // `Keep::only_now`.
        ensures durable { is_durable ≡ true →
            OnOk result (Only (Some bytes.now) (may_leave self.new)) }
        ensures any_moment { is_durable ≡ true → LeavesOnly moment left_since self.old self.new
            (IsOldOrNew (may_leave self.old) bytes.now) }
        ensures fails { IsErrOf result KeepFault.Failed → save_fails self.old bytes.now self.new }
        ensures failures { CountsFailure (count self.old) (count self.new) result };

    /// How many calls failed, of 2^64 - 1 at most.
    fn failures(&self) -> u64
        ensures { result ≡ count self.now };

    /// This moment is one of those since an earlier one.
    ghost counts_now: { (keep : Self) (t : ℕ) (c : Option (List ℕ)) → t ≤ moment keep
        → may_leave keep c → left_since keep t c };

    /// Since this moment there is no other.
    ghost only_now: { (keep : Self) (c : Option (List ℕ)) → left_since keep (moment keep) c
        → may_leave keep c };
}
