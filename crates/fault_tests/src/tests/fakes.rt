//! Readers and writers that are slow, cut, interrupted or fail.

use std::alloc::Global;
use std::io::{self, ErrorKind, Read, Write};

/// A reader of a text and of spaces behind it, at most `step` bytes at a time. Its first calls
/// would block or are interrupted, in turn, and at the end it may fail.
#[derive(Drop)]
pub struct Source<'a> {
    pub text: &'a [u8],
    pub spaces: usize,
    pub step: usize,
    pub interruptions: u32,
    pub fails: bool,
    pub calls: u64,
}

impl<'a> Source<'a> {
    pub fn new(text: &'a [u8]) -> Source<'a> {
        Source {
            text,
            spaces: 0,
            step: 1,
            interruptions: 0,
            fails: false,
            calls: 0,
        }
    }
}

impl<'a> Read for Source<'a> {
    fn read(&mut self, buffer: &mut [u8]) -> io::Result<usize> {
        self.calls = self.calls.saturating_add(1);
        if self.interruptions > 0 {
            self.interruptions -= 1;
            let kind = if self.interruptions % 2 == 0 {
                ErrorKind::Interrupted
            } else {
                ErrorKind::WouldBlock
            };
            return Err(io::Error::from(kind));
        }
        let room = self.step.min(buffer.len());
        if !self.text.is_empty() {
            return self.text.read(&mut buffer[..room]);
        }
        if self.spaces == 0 && self.fails {
            return Err(io::Error::from(ErrorKind::Other));
        }
        let count = room.min(self.spaces);
        buffer[..count].fill(b' ');
        self.spaces -= count;
        Ok(count)
    }
}

/// A writer that takes a byte at a time as far as it has room, and then fails as `end` says: with
/// an error, or by taking no byte.
#[derive(Drop)]
pub struct Sink {
    pub taken: Vec<u8>,
    pub room: usize,
    pub end: Option<ErrorKind>,
    pub calls: u64,
}

impl Sink {
    pub fn new(alloc: Global, room: usize, end: Option<ErrorKind>) -> Sink {
        Sink {
            taken: Vec::new(alloc),
            room,
            end,
            calls: 0,
        }
    }
}

impl Write for Sink {
    fn write(&mut self, bytes: &[u8]) -> io::Result<usize> {
        self.calls = self.calls.saturating_add(1);
        let Some(first) = bytes.first() else {
            return Ok(0);
        };
        if self.room == 0 {
            return match self.end {
                Some(kind) => Err(io::Error::from(kind)),
                None => Ok(0),
            };
        }
        self.room -= 1;
        self.taken.push(*first)?;
        Ok(1)
    }

    fn flush(&mut self) -> io::Result<()> {
        Ok(())
    }
}
