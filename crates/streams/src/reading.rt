use crate::counted::Counted;
use std::io::{self, ErrorKind, Read};

impl<R: Read> Read for Counted<R> {
    ghost use Rattle.std.specs.Prelude.{◌≡◌, ◌<◌, false, length, Ok, IsErrAnd};
    ghost use Rattle.std.specs.Io.{ReadsAtMost};
    ghost use Rattle.std.specs.Io.KnownBytes.{ReadConsumes};
    ghost use Rattle.std.specs.IoError.{error_kind};
    ghost use Rattle.streams.specs.Counts.{CountsRead, IsFull, is_interruption};

    ghost remaining = { λ c. R.remaining c.inner };

    fn read(&mut self, buffer: &mut [u8]) -> io::Result<usize>
        // Proved: Each read and each write is counted by what it answers, but for one of an empty
        // buffer, which isn't passed on; its bytes are those of the stream inside. Once 2^64 - 1
        // were counted, each fails. A flush isn't counted.
        // By `bound`, `bytes`, `empty`, `full`, `called`; `Counted::write`: `bound`, `bytes`,
        // `empty`, `full`, `called`; `Counted::flush`: `bytes`, `counts`.
        ensures bound { ReadsAtMost result buffer.new }
        ensures bytes { ReadConsumes (R.remaining self.old.inner)
            (R.remaining self.new.inner) result
            buffer.new }
        ensures empty { length buffer.old ≡ 0 → (result ≡ Ok 0) × (self.new ≡ self.old) }
        ensures full { 0 < length buffer.old → IsFull self.old →
            IsErrAnd result (λ e. is_interruption (error_kind e) ≡ false)
            × (self.new ≡ self.old) }
        ensures called { 0 < length buffer.old → ¬ IsFull self.old →
            CountsRead self.old self.new result }
    {
        if buffer.is_empty() {
            return Ok(0);
        }
        if self.calls() == u64::MAX {
            return Err(io::Error::from(ErrorKind::Other));
        }
        self.pass_read(buffer)
    }
}
