use crate::attrs_iter::{AttrsIter, RestOfAttrs};
use crate::duplicate::Duplicate;
use crate::few_attrs::FewAttrs;
use crate::name::Name;
use crate::text::Text;
use std::alloc::{AllocError, Global};
use std::collections::BTreeMap;
use std::marker::Model;

/// How many attributes a list holds; the next that is set makes a map of them. A map takes room for
/// eleven pairs at once, where most nodes and resources have two or three; in a list of thousands
/// each new name would move many.
const FEW: usize = 16;

/// Attributes: unique names with texts, in byte order of the names (JDF 1.5, 3.1: the attributes
/// of a node or a resource that our profile doesn't name itself).
#[derive(Drop)]
pub struct Attrs {
    store: Store,
}

/// Where the pairs lie.
#[derive(Drop)]
enum Store {
    Few(FewAttrs),
    Many(BTreeMap<Name, Text>),
}

impl Model for Attrs {
    ghost use Rattle.ticket_items.specs.Attrs.{Pairs};

    ghost Value = { Pairs };

    ghost use Rattle.ticket_items.specs.declared.attrs.Store.TheVariants.{Few, Many};

    ghost view = { λ a. elim a.store [ Few pairs ↦ pairs | Many pairs ↦ pairs.entries ] };
}

impl Attrs {
    ghost use Rattle.std.specs.Prelude.{◌≡◌, ◌↔◌, [], length, IfOk, IsTrue, OnOk, OnErr};
    ghost use Rattle.std.specs.Option.{option_copied};
    ghost use Rattle.ticket_items.specs.Attrs.{IsInOrder, text_at, with_attr};

    /// No attribute.
    pub fn new(alloc: Global) -> Attrs
        // Proved: A pool of attributes begins with none.
        // By `Attrs::with_capacity`.
        ensures { result ≡ [] }
    {
        Attrs {
            store: Store::Few(FewAttrs::new(alloc)),
        }
    }

    /// No attribute, with room for some.
    pub fn with_capacity(alloc: Global, room: usize) -> Result<Attrs, AllocError>
        ensures { IfOk result (λ attrs. attrs ≡ []) }
    {
        let store = if room <= FEW {
            Store::Few(FewAttrs::with_capacity(alloc, room)?)
        } else {
            Store::Many(BTreeMap::new(alloc))
        };
        Ok(Attrs { store })
    }

    /// How many there are.
    pub fn len(&self) -> usize
        ensures { result ≡ length self.now }
    {
        match &self.store {
            Store::Few(pairs) => pairs.as_slice().len(),
            Store::Many(pairs) => pairs.len(),
        }
    }

    /// Whether there is none.
    pub fn is_empty(&self) -> bool
        ensures { IsTrue result ↔ (self.now ≡ []) }
    {
        self.len() == 0
    }

    /// The text of a name.
    pub fn get(&self, name: &Name) -> Option<&Text>
        ensures { option_copied result ≡ text_at name.now self.now }
    {
        match &self.store {
            Store::Few(pairs) => pairs.get(name),
            Store::Many(pairs) => pairs.get(name),
        }
    }

    /// Sets the text of a name, in place of one that is there. Without memory nothing changes.
    pub fn set(&mut self, name: Name, text: Text) -> Result<(), AllocError>
        // Proved: An attribute is set under its name, in place of one that is there, and found by
        // it.
        // By `ok`, `err`; `Attrs::get`.
        ensures ok { OnOk result (self.new ≡ with_attr name text self.old) }
        ensures err { OnErr result (self.new ≡ self.old) }
    {
        match &mut self.store {
            Store::Few(pairs) if pairs.as_slice().len() < FEW => pairs.set(name, text)?,
            Store::Few(pairs) => {
                let mut many = pairs.to_map()?;
                many.insert(name, text)?;
                self.store = Store::Many(many);
            }
            Store::Many(pairs) => {
                pairs.insert(name, text)?;
            }
        }
        Ok(())
    }

    /// The names with their texts, in byte order of the names.
    pub fn iter(&self) -> AttrsIter<'_>
        // Proved: Attributes are told in byte order of their names, each once.
        // By `rest`, `ordered`; `Attrs::len`, `Attrs::is_empty`.
        ensures rest { result ≡ self.now }
        ensures ordered { IsInOrder self.now }
    {
        let left = match &self.store {
            Store::Few(pairs) => RestOfAttrs::Few(pairs.as_slice()),
            Store::Many(pairs) => RestOfAttrs::Many(pairs.iter()),
        };
        AttrsIter { left }
    }
}

impl Clone for Attrs {
    ghost use Rattle.std.specs.Prelude.{◌≡◌};

    ghost is_clone = { λ attrs copied. copied ≡ attrs };

    fn clone(&self) -> Result<Attrs, AllocError> {
        match &self.store {
            Store::Few(pairs) => Ok(Attrs {
                store: Store::Few(pairs.clone()?),
            }),
            Store::Many(pairs) => Ok(Attrs {
                store: Store::Many(pairs.clone()?),
            }),
        }
    }
}

impl Duplicate for Attrs {
    ghost equal = { λ _ _ same. same };
}
