ghost use Rattle.std.specs.Prelude.{◌≡◌, ℕ, List, Bool, false, true, MatchBool};
ghost use Rattle.journal.specs.Journal.{IsAppended, IsLeft, IsMissed, Misses};

/// What keeps lines (our own). All that is promised of it holds where it is honest; no contract can
/// tell that of a file.
pub trait Journal: Drop {
    /// Whether anything is promised of it.
    ghost is_honest: { Self → Bool };

    /// What it holds.
    ghost held: { Self → List ℕ };

    /// Whether a line isn't in it that was to be.
    ghost is_missed: { Self → Bool };

    /// Whether lines are to be appended at all.
    fn is_wanted(&self) -> bool
        // Proved: An honest journal wants lines.
        ensures { is_honest self.now ≡ true → result ≡ true };

    /// Appends whole lines, on a line of their own where what is held has no end of its last line.
    /// Answers whether they are kept: on a disk they are synced then. Else it is missed, and a
    /// front of them may be held.
    fn append(&mut self, lines: &[u8]) -> bool
        // Proved: Lines that are appended stand whole behind what an honest journal held, and
        // where its last line had no end, that gets one first; or a front of them does, and it is
        // told that they are missed.
        // By `lines`, `honest`; `Journal::miss`: `missed`, `honest`; `MemoryJournal::new`,
        // `MemoryJournal::text`.
        // Proved: Of any journal, one in a file too, what isn't kept is told as missed.
        // By `told`; `Journal::miss`: `told`; `FileJournal::note`.
        // Not proved: that a journal in a file is honest: the crate's tests and `.ci/journal.py`
        // show it.
        ensures lines { is_honest self.old ≡ true → MatchBool result
            (IsAppended held is_missed lines.now self.old self.new)
            (IsMissed held is_missed lines.now self.old self.new) }
        ensures honest { is_honest self.new ≡ is_honest self.old }
        ensures told { result ≡ false → is_missed self.new ≡ true };

    /// A line can't be made for want of memory.
    fn miss(&mut self)
        ensures missed { is_honest self.old ≡ true → Misses held is_missed self.old self.new }
        ensures honest { is_honest self.new ≡ is_honest self.old }
        ensures told { is_missed self.new ≡ true };
}
