//! The log: a line for each request, which is never waited for.

ghost use Rattle.std.specs.Prelude.{◌≤◌, length};

use mio::unix::SourceFd;
use mio::{Events, Interest, Poll, Token};
use std::alloc::{AllocError, Global};
use std::io::{self, Write};
use std::net::Net;
use std::os::fd::RawFd;
use std::time::Duration;

/// Standard error.
const DESCRIPTOR: RawFd = 2;

/// How many bytes a pipe takes without a wait, once it takes any (POSIX's `PIPE_BUF`).
const PIECE: usize = 4_096;

/// How many bytes of lines wait at most for whoever reads the log.
const MAX_WAITING: usize = 1_048_576;

/// Lines on their way to standard error, in pieces of whole lines. Where its reader takes none they
/// wait, and where too many do they are dropped and counted.
#[derive(Drop)]
pub struct Log<F> {
    writer: F,
    /// Tells whether a write would wait; nothing of what never does, as a file.
    poll: Option<Poll>,
    events: Events,
    waiting: Vec<u8>,
    /// How many bytes of the lines were written.
    done: usize,
    dropped: u64,
}

/// What tells whether a write to standard error would wait.
fn poll_of<R: Net>(rt: &R) -> io::Result<Poll> {
    let poll = Poll::new(rt)?;
    let descriptor = DESCRIPTOR;
    let mut source = SourceFd(&descriptor);
    poll.registry()
        .register(&mut source, Token(0), Interest::WRITABLE)?;
    Ok(poll)
}

/// Whether a write would not wait, as the system says now.
fn takes_some(poll: &mut Poll, events: &mut Events) -> io::Result<bool> {
    let descriptor = DESCRIPTOR;
    let mut source = SourceFd(&descriptor);
    poll.registry()
        .reregister(&mut source, Token(0), Interest::WRITABLE)?;
    poll.poll(events, Some(Duration::from_millis(0)))?;
    Ok(!events.is_empty())
}

/// How many bytes of lines go in one piece: whole lines, as many as a pipe takes at once.
fn piece_len(lines: &[u8]) -> usize
    ensures { result ≤ length lines.now }
{
    let most = usize::min(lines.len(), PIECE);
    for end in (0..most).rev() {
        if lines[end] == b'\n' {
            return end + 1;
        }
    }
    most
}

impl<F: Write + Drop> Log<F> {
    /// A log of which no line is written yet.
    pub fn new<R: Net>(rt: &R, alloc: Global, writer: F) -> Result<Log<F>, AllocError> {
        Ok(Log {
            writer,
            poll: poll_of(rt).ok(),
            events: Events::with_capacity(alloc, 1)?,
            waiting: Vec::new(alloc),
            done: 0,
            dropped: 0,
        })
    }

    /// Takes a line, where it has room.
    pub fn push(&mut self, line: &str) {
        let room = MAX_WAITING.saturating_sub(self.waiting.len());
        if line.len() > room || self.waiting.extend_from_slice(line.as_bytes()).is_err() {
            self.drop_line();
        }
    }

    /// Counts a line that is dropped.
    pub fn drop_line(&mut self) {
        self.dropped = self.dropped.saturating_add(1);
    }

    /// Whether a write would not wait.
    fn is_ready(&mut self) -> bool {
        match &mut self.poll {
            None => true,
            Some(poll) => takes_some(poll, &mut self.events).unwrap_or(true),
        }
    }

    /// Writes a piece. Answers whether there is more.
    fn write_piece(&mut self) -> bool {
        let lines = &self.waiting.as_slice()[usize::min(self.done, self.waiting.len())..];
        let size = piece_len(lines);
        let taken = self.writer.write(&lines[..size]).unwrap_or(size);
        self.done = self.done.saturating_add(taken);
        if self.done < self.waiting.len() {
            return true;
        }
        self.done = 0;
        self.waiting.clear();
        false
    }

    /// Has a line among those that wait that tells how many were dropped, where some were.
    fn tell_dropped(&mut self) {
        if self.dropped > 0 && self.waiting.is_empty() {
            let dropped = self.dropped;
            self.dropped = 0;
            let _ = writeln!(self.waiting, "{dropped} lines of the log were dropped");
        }
    }

    /// Writes the lines that wait, as far as they are taken at once.
    pub fn flush(&mut self) {
        self.tell_dropped();
        for _ in 0..MAX_WAITING {
            if self.waiting.is_empty() || !self.is_ready() || !self.write_piece() {
                return;
            }
        }
    }
}
