use crate::chars::Chars;
use crate::duplicate::Duplicate;
use crate::refusal::Refusal;
use crate::rules::is_text;
use std::alloc::{AllocError, Global};
use std::marker::Model;

/// A text of our profile: UTF-8 of at most 1,024 bytes, also empty. The value of an attribute, or
/// what a note says.
#[derive(Drop)]
pub struct Text {
    text: Chars,
}

impl Model for Text {
    ghost use Rattle.std.specs.Prelude.{◌≡◌, ℕ, List, true};
    ghost use Rattle.ticket_items.specs.Names.{is_text};

    ghost Value = { List ℕ };

    ghost view = { λ a. a.text };

    ghost invariant = { λ a. is_text (a.text) ≡ true };
}

impl Text {
    ghost use Rattle.std.specs.Prelude.{◌≡◌, true, false, IfOk, IfErr};
    ghost use Rattle.ticket_items.specs.Names as names;

    /// The text. Refuses `BadText` where it has more than 1,024 bytes, and then needs no memory.
    pub fn new(alloc: Global, text: &str) -> Result<Text, Refusal>
        ensures ok { IfOk result (λ t. (t ≡ text.now) × (names.is_text text.now ≡ true)) }
        ensures refused { names.is_text text.now ≡ false → result ≡ Err Refusal.BadText }
        ensures memory { names.is_text text.now ≡ true → IfErr result (λ e. e ≡ Refusal.Memory) }
    {
        if !is_text(text) {
            return Err(Refusal::BadText);
        }
        Ok(Text::from_valid(alloc, text)?)
    }

    /// The text of one that is short enough, as `is_text` tells.
    pub fn from_valid(alloc: Global, text: &str) -> Result<Text, AllocError>
        // Wants: the bytes of a valid text.
        requires { names.is_text text.now ≡ true }
        ensures { IfOk result (λ t. t ≡ text.now) }
    {
        let text = Chars::of(alloc, text)?;
        Ok(Text { text })
    }

    /// Its bytes as text.
    pub fn as_str(&self) -> &str
        ensures value { result.now ≡ self.now }
        ensures valid { names.is_text self.now ≡ true }
    {
        self.text.as_str()
    }
}

impl Clone for Text {
    ghost use Rattle.std.specs.Prelude.{◌≡◌};

    ghost is_clone = { λ text copied. copied ≡ text };

    fn clone(&self) -> Result<Text, AllocError> {
        let text = self.text.clone()?;
        Ok(Text { text })
    }
}

impl Duplicate for Text {
    ghost equal = { λ _ _ same. same };
}

impl PartialEq for Text {
    ghost use Rattle.std.specs.Prelude.{nat_eq};
    ghost use Rattle.std.specs.Cmp.{partial_equiv_from_equiv};
    ghost use Rattle.std.specs.Cmp.Lexicographic.{pointwise, nat_list_eq_equiv};

    ghost eq = { pointwise nat_eq };

    ghost laws = { partial_equiv_from_equiv nat_list_eq_equiv };

    fn eq(&self, other: &Text) -> bool {
        self.as_str() == other.as_str()
    }
}

impl Eq for Text {
    ghost use Rattle.std.specs.Cmp.Lexicographic.{nat_list_eq_equiv};

    ghost laws = { nat_list_eq_equiv };
}
