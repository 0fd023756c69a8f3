use crate::counted::Counted;
use std::io::{self, ErrorKind, Write};

impl<W: Write> Write for Counted<W> {
    ghost use Rattle.std.specs.Prelude.{◌≡◌, ◌<◌, length, Ok, IsErr};
    ghost use Rattle.std.specs.Io.{WritesAtMost};
    ghost use Rattle.std.specs.Io.KnownBytes.{Keeps, WriteAppends};
    ghost use Rattle.streams.specs.Counts.{CountsWrite, IsFull, SameCounts};

    ghost contents = { λ c. W.contents c.inner };

    fn write(&mut self, bytes: &[u8]) -> io::Result<usize>
        ensures bound { WritesAtMost result bytes.now }
        ensures bytes { WriteAppends (W.contents self.old.inner) (W.contents self.new.inner) result
            bytes.now }
        ensures empty { length bytes.now ≡ 0 → (result ≡ Ok 0) × (self.new ≡ self.old) }
        ensures full { 0 < length bytes.now → IsFull self.old →
            IsErr result × (self.new ≡ self.old) }
        ensures called { 0 < length bytes.now → ¬ IsFull self.old →
            CountsWrite self.old self.new result }
    {
        if bytes.is_empty() {
            return Ok(0);
        }
        if self.calls() == u64::MAX {
            return Err(io::Error::from(ErrorKind::Other));
        }
        self.pass_write(bytes)
    }

    fn flush(&mut self) -> io::Result<()>
        ensures bytes { Keeps (W.contents self.old.inner) (W.contents self.new.inner) }
        ensures counts { SameCounts self.old self.new }
    {
        self.pass_flush()
    }
}
