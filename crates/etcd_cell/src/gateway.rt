use http_message::is_word;
use std::alloc::{AllocError, Global};
use std::marker::Model;

/// Where a node of etcd serves its clients: a host and a port, with a `:` between them.
#[derive(Drop)]
pub struct Gateway {
    authority: String,
}

impl Model for Gateway {
    ghost use Rattle.std.specs.Prelude.{◌≡◌, ℕ, List, true, string_bytes};
    ghost use Rattle.http_message.specs.Texts.{is_word};

    ghost Value = { List ℕ };

    ghost view = { λ g. string_bytes g.authority };

    ghost invariant = { λ g. is_word (string_bytes g.authority) ≡ true };
}

impl Gateway {
    ghost use Rattle.std.specs.Prelude.{◌≡◌, Some, None, true, IfOk, if◌then◌else◌};
    ghost use Rattle.http_message.specs.Texts as texts;

    /// The one of this text, if it can stand in a head.
    pub fn of(alloc: Global, text: &str) -> Result<Option<Gateway>, AllocError>
        // Proved: A gateway is one word of visible ASCII, and that is what a head says of it.
        // By `Gateway::authority`: `value`, `fits`.
        ensures { IfOk result (λ found. found
            ≡ (if texts.is_word text.now then Some text.now else None)) }
    {
        if !is_word(text) {
            return Ok(None);
        }
        let authority = String::from_str(alloc, text)?;
        Ok(Some(Gateway { authority }))
    }

    /// Its text, which is what a head's `Host` is.
    pub fn authority(&self) -> &str
        ensures value { result.now ≡ self.now }
        ensures fits { texts.is_word self.now ≡ true }
    {
        self.authority.as_str()
    }
}
