use std::marker::Model;

/// A key with the revision of its value (our own).
#[derive(Drop)]
pub struct KeyVersion {
    key: Vec<u8>,
    revision: u64,
}

impl Model for KeyVersion {
    ghost use Rattle.etcd_wire.specs.Answer as answers;

    ghost Value = { answers.KeyVersion };

    ghost view = { λ k. record { key = k.key.items; revision = k.revision } };
}

impl KeyVersion {
    ghost use Rattle.std.specs.Prelude.{◌≡◌};

    /// The one of these.
    pub fn new(key: Vec<u8>, revision: u64) -> KeyVersion
        ensures { result ≡ record { key = key.items; revision = revision } }
    {
        KeyVersion { key, revision }
    }

    /// The key.
    pub fn key(&self) -> &[u8]
        ensures { result.now ≡ self.now.key }
    {
        self.key.as_slice()
    }

    /// The revision of its value.
    pub fn revision(&self) -> u64
        ensures { result ≡ self.now.revision }
    {
        self.revision
    }
}
