//! One call of a reader or a writer, of which nothing is known but that it was made: so what stands
//! on it can't make two and say that it made one.

ghost use Rattle.std.specs.Prelude.{⊤, ℕ, List, Result};
ghost use Rattle.std.specs.Io.{ReadsAtMost, WritesAtMost};
ghost use Rattle.std.specs.Io.KnownBytes.{Keeps, ReadConsumes, WriteAppends};
ghost use Rattle.std.specs.declared.io.Error.{Error};

use std::io::{self, Read, Write};

/// A reader, by its calls.
pub(crate) trait ReadOnce {
    // A call turns this reader into that one and this buffer into that one, with this answer.
    ghost is_read: { Self → Self → List ℕ → List ℕ → Result ℕ Error → Type 0 };

    /// One read.
    fn read_once(&mut self, buffer: &mut [u8]) -> io::Result<usize>
        ensures { is_read self.old self.new buffer.old buffer.new result };
}

impl<R: Read> ReadOnce for R {
    ghost is_read = { λ old new _ after answer. ReadsAtMost answer after
        × ReadConsumes (R.remaining old) (R.remaining new) answer after };

    fn read_once(&mut self, buffer: &mut [u8]) -> io::Result<usize> {
        self.read(buffer)
    }
}

/// A writer, by its calls.
pub(crate) trait WriteOnce {
    // A call turns this writer into that one, given these bytes, with this answer.
    ghost is_write: { Self → Self → List ℕ → Result ℕ Error → Type 0 };

    // The same of a flush.
    ghost is_flush: { Self → Self → Result ⊤ Error → Type 0 };

    /// One write.
    fn write_once(&mut self, bytes: &[u8]) -> io::Result<usize>
        ensures { is_write self.old self.new bytes.now result };

    /// One flush.
    fn flush_once(&mut self) -> io::Result<()>
        ensures { is_flush self.old self.new result };
}

impl<W: Write> WriteOnce for W {
    ghost is_write = { λ old new bytes answer. WritesAtMost answer bytes
        × WriteAppends (W.contents old) (W.contents new) answer bytes };

    ghost is_flush = { λ old new _. Keeps (W.contents old) (W.contents new) };

    fn write_once(&mut self, bytes: &[u8]) -> io::Result<usize> {
        self.write(bytes)
    }

    fn flush_once(&mut self) -> io::Result<()> {
        self.flush()
    }
}
