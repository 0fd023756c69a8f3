ghost use Rattle.std.specs.Prelude.{◌≡◌, ◌<◌, length};
ghost use Rattle.std.specs.IoError.{error_kind};
ghost use Rattle.streams.specs.Counts as counts;
ghost use Rattle.streams.specs.Counts.{CountsRead, CountsWrite, IsFull, SameCounts};

use crate::once::{ReadOnce, WriteOnce};
use std::io::{self, ErrorKind};
use std::marker::Model;

/// Whether a read that answers this may be made again: it was interrupted, or would have blocked.
pub fn is_interruption(error: &io::Error) -> bool
    // Proved: A read that was interrupted or would have blocked may be made again, and no other
    // that answered an error.
    ensures { result ≡ counts.is_interruption (error_kind error.now) }
{
    matches!(error.kind(), ErrorKind::Interrupted | ErrorKind::WouldBlock)
}

/// A reader or a writer, and how many calls of it were made, how many of these failed, and how many
/// were reads that may be made again: they were interrupted, or would have blocked. A read or write
/// of an empty buffer isn't passed on or counted. Once 2^64 - 1 calls were made, no more are passed
/// on, and each fails.
#[derive(Drop)]
pub struct Counted<T> {
    inner: T,
    calls: u64,
    failures: u64,
    interruptions: u64,
}

impl<T> Model for Counted<T> {
    ghost use Rattle.std.specs.Prelude.{◌+◌, ◌≤◌};
    ghost use Rattle.streams.specs.Counts.{Counts};

    ghost Value = { Counts T };

    ghost view = { λ c. record {
      inner = c.inner;
      calls = c.calls;
      failures = c.failures;
      interruptions = c.interruptions;
    } };

    ghost invariant = { λ c. c.failures + c.interruptions ≤ c.calls };
}

impl<T> Counted<T> {
    /// The reader or writer, of which no call was made yet.
    pub fn new(inner: T) -> Counted<T>
        ensures { result ≡ record { inner = inner; calls = 0; failures = 0; interruptions = 0 } }
    {
        Counted {
            inner,
            calls: 0,
            failures: 0,
            interruptions: 0,
        }
    }

    /// The reader or writer itself.
    pub fn into_inner(self) -> T
        ensures { result ≡ self.inner }
    {
        self.inner
    }

    /// How many calls were made.
    pub fn calls(&self) -> u64
        // Proved: The counts of calls are told, and the stream inside is handed out.
        // By `Counted::failures`, `Counted::interruptions`, `Counted::new`, `Counted::into_inner`.
        ensures { result ≡ self.now.calls }
    {
        self.calls
    }

    /// How many calls failed: reads that answered an error and may not be made again, and writes
    /// that answered an error or took no byte.
    pub fn failures(&self) -> u64
        ensures { result ≡ self.now.failures }
    {
        self.failures
    }

    /// How many reads were interrupted or would have blocked.
    pub fn interruptions(&self) -> u64
        ensures { result ≡ self.now.interruptions }
    {
        self.interruptions
    }
}

impl<R: ReadOnce> Counted<R> {
    /// Makes one read, and counts it.
    pub(crate) fn pass_read(&mut self, buffer: &mut [u8]) -> io::Result<usize>
        requires room { ¬ IsFull self.old }
        // Proved: A call that is counted is one call of the stream inside, whatever that does, and
        // so is a flush: proved of any stream whose calls can be told apart.
        // By `once`, `called`; `Counted::pass_write`: `once`, `called`; `Counted::pass_flush`:
        // `once`, `counts`.
        // Not proved: that `read`, `write` and `flush` make one of these calls, and these one of a
        // stream of the standard library: it is read, and tested, in the lines that hand them on.
        ensures once { R.is_read self.old.inner self.new.inner buffer.old buffer.new result }
        ensures called { CountsRead self.old self.new result }
    {
        let answer = self.inner.read_once(buffer);
        self.calls += 1;
        if let Err(error) = &answer {
            if is_interruption(error) {
                self.interruptions += 1;
            } else {
                self.failures += 1;
            }
        }
        answer
    }
}

impl<W: WriteOnce> Counted<W> {
    /// Makes one write, and counts it.
    pub(crate) fn pass_write(&mut self, bytes: &[u8]) -> io::Result<usize>
        requires room { ¬ IsFull self.old }
        ensures once { W.is_write self.old.inner self.new.inner bytes.now result }
        ensures called { CountsWrite self.old self.new result }
    {
        let answer = self.inner.write_once(bytes);
        self.calls += 1;
        match answer {
            Ok(0) | Err(_) => self.failures += 1,
            Ok(_) => {}
        }
        answer
    }

    /// Makes one flush, which isn't counted.
    pub(crate) fn pass_flush(&mut self) -> io::Result<()>
        ensures once { W.is_flush self.old.inner self.new.inner result }
        ensures counts { SameCounts self.old self.new }
    {
        self.inner.flush_once()
    }
}
