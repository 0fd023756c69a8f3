use std::io::{self, Read, Write};

/// What is said where a person is to type.
const WAITS: &[u8] = b"Waiting for input; end it with Ctrl-D on a line of its own.\n";

/// A reader that says before its first read that input is waited for, where a person types it (our
/// own): a command line that is waited for looks like one that hangs.
#[derive(Drop)]
pub struct Prompt<R, E> {
    reader: R,
    errors: E,
    is_typed: bool,
}

impl<R: Drop, E: Drop> Prompt<R, E> {
    /// A reader of what a person types, or of what comes from elsewhere, of which nothing is said.
    pub fn new(reader: R, errors: E, is_typed: bool) -> Prompt<R, E> {
        Prompt {
            reader,
            errors,
            is_typed,
        }
    }
}

impl<R: Read + Drop, E: Write + Drop> Read for Prompt<R, E> {
    ghost use Rattle.std.specs.Prelude.{None};

    ghost remaining = { λ _. None };

    fn read(&mut self, buffer: &mut [u8]) -> io::Result<usize> {
        if self.is_typed {
            self.is_typed = false;
            let _ = self.errors.write_all(WAITS);
        }
        self.reader.read(buffer)
    }
}
