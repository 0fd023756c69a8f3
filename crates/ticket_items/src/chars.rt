use arrayvec::ArrayString;
use std::alloc::{AllocError, Global};
use std::marker::Model;

/// How many bytes a text has at most that lies in the value itself. Most ids, names and values are
/// as short, and then take no memory of their own.
const SHORT: usize = 23;

/// The characters of an id, a name or a text.
pub(crate) struct Chars {
    store: Store,
}

/// Where they lie.
#[derive(Drop)]
enum Store {
    Short(ArrayString<SHORT>),
    Long(String),
}

impl Model for Chars {
    ghost use Rattle.std.specs.Prelude.{ℕ, List, string_bytes};
    ghost use Rattle.ticket_items.specs.declared.chars.Store.TheVariants.{Short, Long};

    ghost Value = { List ℕ };

    ghost view = { λ a. elim a.store [ Short text ↦ text.bytes | Long text ↦ string_bytes text ] };
}

impl Chars {
    ghost use Rattle.std.specs.Prelude.{◌≡◌, IfOk};

    /// These characters.
    pub(crate) fn of(alloc: Global, text: &str) -> Result<Chars, AllocError>
        ensures { IfOk result (λ chars. chars ≡ text.now) }
    {
        let store = match ArrayString::from(text) {
            Ok(short) => Store::Short(short),
            Err(_) => Store::Long(String::from_str(alloc, text)?),
        };
        Ok(Chars { store })
    }

    /// As a text.
    pub(crate) fn as_str(&self) -> &str
        ensures { result.now ≡ self.now }
    {
        match &self.store {
            Store::Short(text) => text.as_str(),
            Store::Long(text) => text.as_str(),
        }
    }
}

impl Drop for Chars {
    fn drop(self) {
        let Chars { store } = self;
        drop(store);
    }
}

impl Clone for Chars {
    ghost use Rattle.std.specs.Prelude.{◌≡◌};

    ghost is_clone = { λ chars copied. copied ≡ chars };

    fn clone(&self) -> Result<Chars, AllocError> {
        match &self.store {
            Store::Short(text) => Ok(Chars {
                store: Store::Short(*text),
            }),
            Store::Long(text) => Ok(Chars {
                store: Store::Long(text.clone()?),
            }),
        }
    }
}
