use std::alloc::AllocError;
use std::marker::Model;

/// A value of bytes with its revision (our own).
#[derive(Drop)]
pub struct VersionedValue {
    revision: u64,
    bytes: Vec<u8>,
}

impl Model for VersionedValue {
    ghost use Rattle.cells.specs.Chain.{Version};

    ghost Value = { Version };

    ghost view = { λ a. record { revision = a.revision; bytes = a.bytes.items } };
}

impl VersionedValue {
    ghost use Rattle.std.specs.Prelude.{◌≡◌, IfOk};

    /// These bytes, of this revision.
    pub fn new(revision: u64, bytes: Vec<u8>) -> VersionedValue
        // Proved: A value has its revision and its bytes, and a copy the same.
        // By `VersionedValue::revision`, `VersionedValue::bytes`, `VersionedValue::copy_bytes`,
        // `VersionedValue::copy`, `VersionedValue::into_bytes`.
        ensures { result ≡ record { revision = revision; bytes = bytes.items } }
    {
        VersionedValue { revision, bytes }
    }

    /// Its revision.
    pub fn revision(&self) -> u64
        ensures { result ≡ self.now.revision }
    {
        self.revision
    }

    /// Its bytes.
    pub fn bytes(&self) -> &[u8]
        ensures { result.now ≡ self.now.bytes }
    {
        self.bytes.as_slice()
    }

    /// A copy of its bytes, on their allocator.
    pub fn copy_bytes(&self) -> Result<Vec<u8>, AllocError>
        ensures { IfOk result (λ bytes. bytes.items ≡ self.now.bytes) }
    {
        Vec::from_slice(*self.bytes.allocator(), self.bytes.as_slice())
    }

    /// A copy of it, on the allocator of its bytes.
    pub fn copy(&self) -> Result<VersionedValue, AllocError>
        ensures { IfOk result (λ copy. copy ≡ self.now) }
    {
        let bytes = self.copy_bytes()?;
        Ok(VersionedValue::new(self.revision, bytes))
    }

    /// Its bytes.
    pub fn into_bytes(self) -> Vec<u8>
        ensures { result.items ≡ self.bytes }
    {
        self.bytes
    }
}
