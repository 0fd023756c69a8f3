ghost use Rattle.std.specs.Prelude.{◌≡◌, ◌≤◌, ℕ, List, Bool, true, Option, IfErr};
ghost use Rattle.keepers.specs.Crash.{Elapses};
ghost use Rattle.keepers.specs.Disk.{Clears, HasCause, Links, Makes, Places, Reads};
ghost use Rattle.keepers.specs.Disk.{Syncs, SyncsFolder, View, Writes};

use crate::keep_fault::KeepFault;

/// A disk, as far as one file goes that is saved as a whole (our own): the file, and beside it a
/// draft, which is written and then takes the file's name. All that is promised of the two holds
/// for a disk that is honest; no contract can tell that of a system's disk. Each call says what is
/// seen after it, and what a crash at that moment may leave; and how far time went on, so that a
/// contract above can speak of a crash at any moment. A call that fails is counted.
pub trait Disk: Drop {
    /// Whether anything is promised of the file.
    ghost is_honest: { Bool };

    /// The place of the file, as a path is.
    ghost place: { Self → List ℕ };

    /// The file and its draft.
    ghost view: { Self → View };

    /// The moment, as a number that doesn't fall.
    ghost moment: { Self → ℕ };

    /// What a crash at some moment from that one on might have left, in a call or between two.
    ghost left_since: { Self → ℕ → Option (List ℕ) → Type 0 };

    /// How many calls failed.
    ghost faults: { Self → ℕ };

    /// The bytes of the file. Refuses `Failed`, as where there is no file; and `Memory`.
    fn read(&mut self) -> Result<Vec<u8>, KeepFault>
        // Proved: What each call of a disk that is honest does to what is seen, and to what a
        // crash may leave, is told.
        // By `reads`, `time`; `Disk::clear`: `clears`, `time`; `Disk::make`: `makes`, `time`;
        // `Disk::write`: `writes`, `time`; `Disk::sync`: `syncs`, `time`; `Disk::rename`:
        // `renames`, `time`; `Disk::link`: `links`, `time`; `Disk::sync_folder`: `syncs`, `time`.
        ensures reads { is_honest ≡ true → Reads (view self.old) (view self.new) result }
        ensures time { is_honest ≡ true → Elapses (moment self.old) (moment self.new)
            (left_since self.old) (left_since self.new) (view self.new).may_leave }
        // Proved: No call of a disk changes its place, and one that fails counts it; only a read
        // may want memory.
        // By `place`, `cause`; `Disk::clear`, `Disk::make`, `Disk::write`, `Disk::sync`,
        // `Disk::rename`, `Disk::link`, `Disk::sync_folder`: `place`, `only`, `cause`;
        // `Disk::failures`.
        ensures place { place self.new ≡ place self.old }
        ensures cause { HasCause (faults self.old) (faults self.new) result };

    /// Removes what has the draft's name, of whatever kind; a draft that was given the file's name
    /// stays the file. Refuses `Failed`.
    fn clear(&mut self) -> Result<(), KeepFault>
        ensures clears { is_honest ≡ true → Clears (view self.old) (view self.new) result }
        ensures time { is_honest ≡ true → Elapses (moment self.old) (moment self.new)
            (left_since self.old) (left_since self.new) (view self.new).may_leave }
        ensures place { place self.new ≡ place self.old }
        ensures only { IfErr result (λ fault. fault ≡ KeepFault.Failed) }
        ensures cause { HasCause (faults self.old) (faults self.new) result };

    /// Makes a new draft, of no bytes, under its name, which nothing has. Refuses `Failed`.
    fn make(&mut self) -> Result<(), KeepFault>
        // Wants: a draft's name that nothing has.
        requires { is_honest ≡ true → (view self.old).is_free ≡ true }
        ensures makes { is_honest ≡ true → Makes (view self.old) (view self.new) result }
        ensures time { is_honest ≡ true → Elapses (moment self.old) (moment self.new)
            (left_since self.old) (left_since self.new) (view self.new).may_leave }
        ensures place { place self.new ≡ place self.old }
        ensures only { IfErr result (λ fault. fault ≡ KeepFault.Failed) }
        ensures cause { HasCause (faults self.old) (faults self.new) result };

    /// Writes bytes to the end of the draft. Refuses `Failed`.
    fn write(&mut self, bytes: &[u8]) -> Result<(), KeepFault>
        ensures writes { is_honest ≡ true →
            Writes (view self.old) bytes.now (view self.new) result }
        ensures time { is_honest ≡ true → Elapses (moment self.old) (moment self.new)
            (left_since self.old) (left_since self.new) (view self.new).may_leave }
        ensures place { place self.new ≡ place self.old }
        ensures only { IfErr result (λ fault. fault ≡ KeepFault.Failed) }
        ensures cause { HasCause (faults self.old) (faults self.new) result };

    /// Waits until what was written to the draft is on the disk. Behind a sync that failed, another
    /// tells nothing. Refuses `Failed`.
    fn sync(&mut self) -> Result<(), KeepFault>
        ensures syncs { is_honest ≡ true → Syncs (view self.old) (view self.new) result }
        ensures time { is_honest ≡ true → Elapses (moment self.old) (moment self.new)
            (left_since self.old) (left_since self.new) (view self.new).may_leave }
        ensures place { place self.new ≡ place self.old }
        ensures only { IfErr result (λ fault. fault ≡ KeepFault.Failed) }
        ensures cause { HasCause (faults self.old) (faults self.new) result };

    /// Gives the draft the file's name, in the place of the file. Refuses `Failed`.
    fn rename(&mut self) -> Result<(), KeepFault>
        ensures renames { is_honest ≡ true → Places (view self.old) (view self.new) result }
        ensures time { is_honest ≡ true → Elapses (moment self.old) (moment self.new)
            (left_since self.old) (left_since self.new) (view self.new).may_leave }
        ensures place { place self.new ≡ place self.old }
        ensures only { IfErr result (λ fault. fault ≡ KeepFault.Failed) }
        ensures cause { HasCause (faults self.old) (faults self.new) result };

    /// Gives the draft the file's name beside its own. Refuses `Failed`, as where something has the
    /// file's name.
    fn link(&mut self) -> Result<(), KeepFault>
        ensures links { is_honest ≡ true → Links (view self.old) (view self.new) result }
        ensures time { is_honest ≡ true → Elapses (moment self.old) (moment self.new)
            (left_since self.old) (left_since self.new) (view self.new).may_leave }
        ensures place { place self.new ≡ place self.old }
        ensures only { IfErr result (λ fault. fault ≡ KeepFault.Failed) }
        ensures cause { HasCause (faults self.old) (faults self.new) result };

    /// Waits until the names of the folder are on the disk. Refuses `Failed`.
    fn sync_folder(&mut self) -> Result<(), KeepFault>
        ensures syncs { is_honest ≡ true → SyncsFolder (view self.old) (view self.new) result }
        ensures time { is_honest ≡ true → Elapses (moment self.old) (moment self.new)
            (left_since self.old) (left_since self.new) (view self.new).may_leave }
        ensures place { place self.new ≡ place self.old }
        ensures only { IfErr result (λ fault. fault ≡ KeepFault.Failed) }
        ensures cause { HasCause (faults self.old) (faults self.new) result };

    /// How many calls failed, of 2^64 - 1 at most.
    fn failures(&self) -> u64
        ensures { result ≡ faults self.now };

    /// This moment is one of those since an earlier one.
    ghost counts_now: { (disk : Self) (t : ℕ) (c : Option (List ℕ)) → t ≤ moment disk
        → (view disk).may_leave c → left_since disk t c };

    /// Since this moment there is no other.
    ghost only_now: { (disk : Self) (c : Option (List ℕ)) → left_since disk (moment disk) c
        → (view disk).may_leave c };
}
