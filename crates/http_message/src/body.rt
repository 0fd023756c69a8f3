use std::marker::Model;

/// The body of a message, within the bytes that were read.
#[derive(Drop)]
pub struct Body {
    bytes: Vec<u8>,
    start: usize,
    end: usize,
}

impl Model for Body {
    ghost use Rattle.std.specs.Prelude.{◌≤◌, ℕ, List, slice_range, vec_len};

    ghost Value = { List ℕ };

    ghost view = { λ b. slice_range b.bytes.items b.start b.end };

    ghost invariant = { λ b. (b.start ≤ b.end) × (b.end ≤ vec_len b.bytes) };
}

impl Body {
    ghost use Rattle.std.specs.Prelude.{◌≡◌, ◌≤◌, slice_range, vec_len};

    /// These of the bytes.
    pub(crate) fn new(bytes: Vec<u8>, start: usize, end: usize) -> Body
        requires ordered { start ≤ end }
        requires within { end ≤ vec_len bytes }
        ensures { result ≡ slice_range bytes.items start end }
    {
        Body { bytes, start, end }
    }

    /// Its bytes.
    pub fn as_slice(&self) -> &[u8]
        // Proved: A body's bytes are told.
        ensures { result.now ≡ self.now }
    {
        &self.bytes.as_slice()[self.start..self.end]
    }
}
