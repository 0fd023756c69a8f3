use crate::cut::Cut;
use std::io::{self, Read};

/// A reader that gives a byte a call, and of which one call is cut, for tests of what reads (our
/// own). Calls count from 1 on.
#[derive(Drop)]
pub struct CutReader<'a> {
    /// What it has left to give.
    pub bytes: &'a [u8],
    /// What becomes of the call that is cut.
    pub cut: Cut,
    /// The number of that call.
    pub at: u64,
    /// How many calls were made.
    pub calls: u64,
}

impl<'a> CutReader<'a> {
    /// A reader of these bytes, of which no call was made yet.
    pub fn new(bytes: &'a [u8], cut: Cut, at: u64) -> CutReader<'a> {
        let given = match cut {
            Cut::Ends => usize::try_from(at.saturating_sub(1)).unwrap_or(usize::MAX),
            _ => usize::MAX,
        };
        CutReader {
            bytes: bytes.get(..given).unwrap_or(bytes),
            cut,
            at,
            calls: 0,
        }
    }
}

impl<'a> Read for CutReader<'a> {
    ghost use Rattle.std.specs.Prelude.{Some};
    ghost use Rattle.std.specs.Io.{ReadsAtMost};
    ghost use Rattle.std.specs.Io.KnownBytes.{ReadConsumes};

    ghost remaining = { λ r. Some r.bytes.now };

    fn read(&mut self, buffer: &mut [u8]) -> io::Result<usize>
        // Proved: The reader and the writer for tests read and take bytes as any, whatever call of
        // them is cut.
        // By `bound`, `bytes`; `CutWriter::write`: `bound`, `bytes`.
        ensures bound { ReadsAtMost result buffer.new }
        ensures bytes { ReadConsumes (Some self.old.bytes.now) (Some self.new.bytes.now) result
            buffer.new }
    {
        self.calls = self.calls.saturating_add(1);
        if let Some(kind) = self.cut.error(self.at, self.calls) {
            return Err(io::Error::from(kind));
        }
        let room = buffer.len().min(1);
        self.bytes.read(&mut buffer[..room])
    }
}
