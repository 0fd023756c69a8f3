//! Names, and fronts of names.

ghost use Rattle.std.specs.Prelude.{◌≡◌};
ghost use Rattle.peers_file.specs.Pattern as patterns;

use std::alloc::{AllocError, Global};
use std::marker::Model;
use ticket_items::is_name;

/// A name, or a `*`, or a name with a `*` behind it: what names begin with.
#[derive(Drop)]
pub(crate) struct Pattern {
    text: String,
}

impl Model for Pattern {
    ghost use Rattle.std.specs.Prelude.{◌≡◌, ℕ, List, true, string_bytes};
    ghost use Rattle.peers_file.specs.Pattern.{is_pattern};

    ghost Value = { List ℕ };

    ghost view = { λ p. string_bytes p.text };

    ghost invariant = { λ p. is_pattern (string_bytes p.text) ≡ true };
}

/// Whether a text is a pattern.
fn is_pattern(text: &str) -> bool
    ensures { result ≡ patterns.is_pattern text.now }
{
    match text.strip_suffix('*') {
        None => is_name(text),
        Some(front) => front.is_empty() || is_name(front),
    }
}

impl Pattern {
    ghost use Rattle.std.specs.Prelude.{◌≡◌, Some, None, IfOk, if◌then◌else◌};
    ghost use Rattle.peers_file.specs.Pattern as patterns;

    /// The pattern that a text is.
    pub fn of(alloc: Global, text: &str) -> Result<Option<Pattern>, AllocError>
        ensures { IfOk result (λ found. found
            ≡ (if patterns.is_pattern text.now then Some text.now else None)) }
    {
        if !is_pattern(text) {
            return Ok(None);
        }
        let text = String::from_str(alloc, text)?;
        Ok(Some(Pattern { text }))
    }

    /// Its bytes.
    pub fn as_bytes(&self) -> &[u8]
        ensures { result.now ≡ self.now }
    {
        self.text.as_bytes()
    }
}
