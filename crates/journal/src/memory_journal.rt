use crate::journal::Journal;
use std::alloc::AllocError;
use std::marker::Model;

/// A journal in memory, for tests of what stands on journals (our own).
#[derive(Drop)]
pub struct MemoryJournal {
    bytes: Vec<u8>,
    missed: bool,
}

impl Model for MemoryJournal {
    ghost use Rattle.journal.specs.InMemory.{InMemory};

    ghost Value = { InMemory };

    ghost view = { λ journal. record { held = journal.bytes.items; missed = journal.missed } };
}

impl MemoryJournal {
    ghost use Rattle.std.specs.Prelude.{◌≡◌, ◌++◌, false, IfOk};
    ghost use Rattle.journal.specs.Journal.{behind, lacks_end};

    /// A journal that holds these bytes, and of which nothing is missed.
    pub fn new(bytes: Vec<u8>) -> MemoryJournal
        ensures { result ≡ record { held = bytes.items; missed = false } }
    {
        MemoryJournal {
            bytes,
            missed: false,
        }
    }

    /// What it holds.
    pub fn text(&self) -> &[u8]
        ensures { result.now ≡ self.now.held }
    {
        self.bytes.as_slice()
    }

    /// Whether its last line has no end.
    fn lacks_end(&self) -> bool
        ensures { result ≡ lacks_end self.now.held }
    {
        match self.bytes.as_slice().last() {
            Some(byte) => *byte != b'\n',
            None => false,
        }
    }

    /// What it holds then.
    fn with(&self, lines: &[u8]) -> Result<Vec<u8>, AllocError>
        ensures { IfOk result (λ bytes. bytes.items
            ≡ self.now.held ++ behind self.now.held lines.now) }
    {
        let mut bytes = Vec::from_slice(*self.bytes.allocator(), self.bytes.as_slice())?;
        if self.lacks_end() {
            bytes.push(b'\n')?;
        }
        bytes.extend_from_slice(lines)?;
        Ok(bytes)
    }
}

impl Journal for MemoryJournal {
    ghost use Rattle.std.specs.Prelude.{true};

    ghost is_honest = { λ _. true };

    ghost held = { λ journal. journal.held };

    ghost is_missed = { λ journal. journal.missed };

    fn is_wanted(&self) -> bool {
        true
    }

    fn append(&mut self, lines: &[u8]) -> bool {
        match self.with(lines) {
            Ok(bytes) => {
                self.bytes = bytes;
                true
            }
            Err(AllocError) => {
                self.missed = true;
                false
            }
        }
    }

    fn miss(&mut self) {
        self.missed = true;
    }
}
