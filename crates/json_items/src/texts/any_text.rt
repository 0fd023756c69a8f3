ghost use Rattle.std.specs.Prelude.{◌≡◌, true, IfOk};
ghost use Rattle.serde_json.specs.Find.{as_str};

use crate::{Form, Validation};
use json_source::Source;
use std::alloc::{AllocError, Global};
use std::marker::Model;
use ticket_items::Refusal;

/// Any text, such as the id of a spawn that a resource shows, or a word of a message.
#[derive(Drop)]
pub struct AnyText {
    text: String,
}

impl Model for AnyText {
    ghost use Rattle.std.specs.Prelude.{ℕ, List, string_bytes};

    ghost Value = { List ℕ };

    ghost view = { λ a. string_bytes a.text };
}

impl AnyText {
    /// This text.
    pub fn new(alloc: Global, text: &str) -> Result<AnyText, AllocError>
        // Proved: A text is what it was made of.
        // By `AnyText::as_str`.
        ensures { IfOk result (λ any. any ≡ text.now) }
    {
        let text = String::from_str(alloc, text)?;
        Ok(AnyText { text })
    }

    /// Its characters.
    pub fn as_str(&self) -> &str
        ensures { result.now ≡ self.now }
    {
        self.text.as_str()
    }
}

impl From<String> for AnyText {
    ghost use Rattle.std.specs.Prelude.{◌≡◌, string_bytes};

    ghost from_gives = { λ text any. any ≡ string_bytes text };

    fn from(text: String) -> AnyText {
        AnyText { text }
    }
}

impl Form for AnyText {
    ghost form = { as_str };

    ghost has_names = { λ _. true };

    ghost has_texts = { λ _. true };

    fn find<S: Source>(alloc: Global, value: &S) -> Result<Validation<AnyText>, Refusal> {
        let text = value.text().ok_or(Refusal::NotProfile)?;
        Ok(Ok(AnyText::new(alloc, text)?))
    }
}
