use crate::chars::Chars;
use crate::duplicate::Duplicate;
use crate::refusal::Refusal;
use crate::rules::is_name;
use std::alloc::{AllocError, Global};
use std::cmp::Ordering;
use std::hash::{Hash, Hasher};
use std::marker::{Model, PhantomData};

/// A word that names something of the kind: 1 to 64 characters of `A-Z a-z 0-9 _ . -`, of which the
/// first is a letter or `_`. Words of different kinds, such as an id and a name, are different
/// types.
#[derive(Drop)]
pub struct Word<K> {
    text: Chars,
    kind: PhantomData<K>,
}

impl<K> Model for Word<K> {
    ghost use Rattle.std.specs.Prelude.{◌≡◌, ℕ, List, true};
    ghost use Rattle.ticket_items.specs.Names.{is_name};

    ghost Value = { List ℕ };

    ghost view = { λ a. a.text };

    ghost invariant = { λ a. is_name a.text ≡ true };
}

impl<K> Word<K> {
    ghost use Rattle.std.specs.Prelude.{◌≡◌, true, false, IfOk, IfErr};
    ghost use Rattle.ticket_items.specs.Names as names;

    /// The word that the text is. Refuses `BadId` where it is none, and then needs no memory.
    pub fn new(alloc: Global, text: &str) -> Result<Word<K>, Refusal>
        // Proved: An id, name and text is accepted just within its limits.
        // By `ok`, `refused`, `memory`; `Text::new`: `ok`, `refused`, `memory`; `is_name`,
        // `is_text`.
        ensures ok { IfOk result (λ word. (word ≡ text.now) × (names.is_name text.now ≡ true)) }
        ensures refused { names.is_name text.now ≡ false → result ≡ Err Refusal.BadId }
        ensures memory { names.is_name text.now ≡ true → IfErr result (λ e. e ≡ Refusal.Memory) }
    {
        if !is_name(text) {
            return Err(Refusal::BadId);
        }
        Ok(Word::from_valid(alloc, text)?)
    }

    /// The word of a text that is one, as `is_name` tells.
    pub fn from_valid(alloc: Global, text: &str) -> Result<Word<K>, AllocError>
        // Wants: the bytes of a valid word.
        requires { names.is_name text.now ≡ true }
        ensures { IfOk result (λ word. word ≡ text.now) }
    {
        let text = Chars::of(alloc, text)?;
        Ok(Word {
            text,
            kind: PhantomData,
        })
    }

    /// Its characters.
    pub fn as_str(&self) -> &str
        // Proved: An id, a name and a text keeps its characters, and they are valid.
        // By `value`, `valid`; `Text::as_str`: `value`, `valid`; `Word::from_valid`,
        // `Text::from_valid`.
        ensures value { result.now ≡ self.now }
        ensures valid { names.is_name self.now ≡ true }
    {
        self.text.as_str()
    }
}

impl<K> Clone for Word<K> {
    ghost use Rattle.std.specs.Prelude.{◌≡◌};

    ghost is_clone = { λ word copied. copied ≡ word };

    fn clone(&self) -> Result<Word<K>, AllocError> {
        let text = self.text.clone()?;
        Ok(Word {
            text,
            kind: PhantomData,
        })
    }
}

impl<K> Duplicate for Word<K> {
    ghost equal = { λ _ _ same. same };
}

impl<K> PartialEq for Word<K> {
    ghost use Rattle.std.specs.Prelude.{nat_eq};
    ghost use Rattle.std.specs.Cmp.{partial_equiv_from_equiv};
    ghost use Rattle.std.specs.Cmp.Lexicographic.{pointwise, nat_list_eq_equiv};

    ghost eq = { pointwise nat_eq };

    ghost laws = { partial_equiv_from_equiv nat_list_eq_equiv };

    fn eq(&self, other: &Word<K>) -> bool {
        self.as_str() == other.as_str()
    }
}

impl<K> Eq for Word<K> {
    ghost use Rattle.std.specs.Cmp.Lexicographic.{nat_list_eq_equiv};

    ghost laws = { nat_list_eq_equiv };
}

impl<K> Hash for Word<K> {
    ghost use Rattle.std.specs.Hash as fed;
    ghost use Rattle.std.specs.Cmp.Rules.{hashing};
    ghost use Rattle.std.proofs.Common.{rules};

    ghost hash_input = { fed.str };

    ghost respects_eq = { Prim.search (hashing, rules) };

    fn hash<H: Hasher>(&self, state: &mut H) {
        self.as_str().hash(state);
    }
}

impl<K> PartialOrd for Word<K> {
    ghost use Rattle.std.specs.Cmp.{partial_order_from_own_ties};
    ghost use Rattle.std.specs.Cmp.Lexicographic.{slice_cmp};
    ghost use Rattle.std.specs.Cmp.Rules.{comparing};
    ghost use Rattle.std.specs.Ordering.{as_partial_cmp, nat_cmp};
    ghost use Rattle.std.proofs.Common.{rules};

    ghost partial_cmp = { as_partial_cmp (slice_cmp nat_cmp) };

    ghost laws = { partial_order_from_own_ties (Prim.search (comparing, rules))
        (Prim.search (comparing, rules)) };

    fn partial_cmp(&self, other: &Word<K>) -> Option<Ordering> {
        Some(self.cmp(other))
    }
}

impl<K> Ord for Word<K> {
    ghost use Rattle.std.specs.Cmp.Lexicographic.{slice_cmp};
    ghost use Rattle.std.specs.Cmp.Rules.{comparing};
    ghost use Rattle.std.specs.Ordering.{nat_cmp};
    ghost use Rattle.std.proofs.Common.{rules};

    ghost cmp = { slice_cmp nat_cmp };

    ghost total = { Prim.search (comparing, rules) };

    ghost matches_partial_cmp = { Prim.search (comparing, rules) };

    ghost matches_eq = { Prim.search (comparing, rules) };

    fn cmp(&self, other: &Word<K>) -> Ordering {
        self.as_str().cmp(other.as_str())
    }
}
