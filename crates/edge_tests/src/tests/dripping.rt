use std::alloc::Global;
use std::io::{self, ErrorKind, Read, Write};

/// A stream of one byte at a time, of which every other read and every other write would block,
/// unless none is to. Behind the text that is read it is at its end, or fails so; and where no room
/// is left it is broken.
#[derive(Drop)]
pub struct Dripping {
    pub text: &'static [u8],
    pub end: Option<ErrorKind>,
    pub room: usize,
    pub blocks: bool,
    pub taken: Vec<u8>,
    read_blocked: bool,
    write_blocked: bool,
}

impl Dripping {
    pub fn new(alloc: Global, text: &'static [u8]) -> Dripping {
        Dripping {
            text,
            end: None,
            room: 1_000,
            blocks: true,
            taken: Vec::new(alloc),
            read_blocked: false,
            write_blocked: false,
        }
    }
}

impl Read for Dripping {
    fn read(&mut self, buffer: &mut [u8]) -> io::Result<usize> {
        self.read_blocked = self.blocks && !self.read_blocked;
        if self.read_blocked {
            return Err(io::Error::from(ErrorKind::WouldBlock));
        }
        if let (true, Some(kind)) = (self.text.is_empty(), self.end) {
            return Err(io::Error::from(kind));
        }
        let room = buffer.len().min(1);
        self.text.read(&mut buffer[..room])
    }
}

impl Write for Dripping {
    fn write(&mut self, bytes: &[u8]) -> io::Result<usize> {
        let Some(first) = bytes.first() else {
            return Ok(0);
        };
        self.write_blocked = self.blocks && !self.write_blocked;
        if self.write_blocked {
            return Err(io::Error::from(ErrorKind::WouldBlock));
        }
        if self.room == 0 {
            return Err(io::Error::from(ErrorKind::BrokenPipe));
        }
        self.room -= 1;
        self.taken.push(*first)?;
        Ok(1)
    }

    fn flush(&mut self) -> io::Result<()> {
        Ok(())
    }
}
