use crate::cut::Cut;
use std::alloc::Global;
use std::io::{self, Write};

/// A writer that takes a byte a call, and of which one call is cut, for tests of what writes (our
/// own). Calls count from 1 on.
#[derive(Drop)]
pub struct CutWriter {
    /// What it has taken.
    pub taken: Vec<u8>,
    /// What becomes of the call that is cut.
    pub cut: Cut,
    /// The number of that call.
    pub at: u64,
    /// How many calls were made.
    pub calls: u64,
}

impl CutWriter {
    /// A writer that has taken nothing, and of which no call was made yet.
    pub fn new(alloc: Global, cut: Cut, at: u64) -> CutWriter {
        CutWriter {
            taken: Vec::new(alloc),
            cut,
            at,
            calls: 0,
        }
    }
}

impl Write for CutWriter {
    ghost use Rattle.std.specs.Prelude.{Some};
    ghost use Rattle.std.specs.Io.{WritesAtMost};
    ghost use Rattle.std.specs.Io.KnownBytes.{Keeps, WriteAppends};

    ghost contents = { λ w. Some w.taken.items };

    fn write(&mut self, bytes: &[u8]) -> io::Result<usize>
        ensures bound { WritesAtMost result bytes.now }
        ensures bytes { WriteAppends (Some self.old.taken.items) (Some self.new.taken.items) result
            bytes.now }
    {
        self.calls = self.calls.saturating_add(1);
        if let Some(kind) = self.cut.error(self.at, self.calls) {
            return Err(io::Error::from(kind));
        }
        match bytes {
            [first, ..] if !self.is_at_end() => {
                self.taken.push(*first)?;
                Ok(1)
            }
            _ => Ok(0),
        }
    }

    fn flush(&mut self) -> io::Result<()> {
        Ok(())
    }
}

impl CutWriter {
    /// Whether it takes nothing more.
    fn is_at_end(&self) -> bool {
        matches!(self.cut, Cut::Ends) && self.calls >= self.at
    }
}
