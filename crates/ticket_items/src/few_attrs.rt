use crate::name::Name;
use crate::text::Text;
use std::alloc::{AllocError, Global};
use std::collections::BTreeMap;
use std::marker::Model;

/// Few attributes, in a list in byte order of their names.
#[derive(Drop)]
pub(crate) struct FewAttrs {
    pairs: Vec<(Name, Text)>,
}

impl Model for FewAttrs {
    ghost use Rattle.ticket_items.specs.Attrs.{IsInOrder, Pairs};

    ghost Value = { Pairs };

    ghost view = { λ a. a.pairs.items };

    ghost invariant = { λ a. IsInOrder a.pairs.items };
}

impl FewAttrs {
    ghost use Rattle.std.specs.Prelude.{◌≡◌, [], IfOk, IfErr, OnOk, OnErr};
    ghost use Rattle.std.specs.Option.{option_copied};
    ghost use Rattle.ticket_items.specs.Attrs.{IsInOrder, text_at, with_attr};
    ghost use Rattle.ticket_items.specs.AttrPlaces.{BelongsAt, StandsAt};

    /// No attribute.
    #[tactic(auto, using(crate::proofs::Ordered::none_in_order))]
    pub(crate) fn new(alloc: Global) -> FewAttrs
        ensures { result ≡ [] }
    {
        FewAttrs {
            pairs: Vec::new(alloc),
        }
    }

    /// No attribute, with room for some.
    #[tactic(auto, using(crate::proofs::Ordered::none_in_order))]
    pub(crate) fn with_capacity(alloc: Global, room: usize) -> Result<FewAttrs, AllocError>
        ensures { IfOk result (λ attrs. attrs ≡ []) }
    {
        let pairs = Vec::with_capacity(alloc, room)?;
        Ok(FewAttrs { pairs })
    }

    /// The pairs, in byte order of the names.
    pub(crate) fn as_slice(&self) -> &[(Name, Text)]
        ensures value { result.now ≡ self.now }
        ensures ordered { IsInOrder self.now }
    {
        self.pairs.as_slice()
    }

    /// The text of a name.
    pub(crate) fn get(&self, name: &Name) -> Option<&Text>
        ensures { option_copied result ≡ text_at name.now self.now }
    {
        match self.search(name) {
            Ok(place) => Some(&self.pairs[place].1),
            Err(_) => None,
        }
    }

    /// Sets the text of a name, in place of one that is there.
    pub(crate) fn set(&mut self, name: Name, text: Text) -> Result<(), AllocError>
        ensures ok { OnOk result (self.new ≡ with_attr name text self.old) }
        ensures err { OnErr result (self.new ≡ self.old) }
    {
        match self.search(&name) {
            Ok(place) => {
                self.pairs[place].1 = text;
                Ok(())
            }
            Err(place) => Ok(self.pairs.insert(place, (name, text))?),
        }
    }

    /// Copies of them in a map.
    pub(crate) fn to_map(&self) -> Result<BTreeMap<Name, Text>, AllocError>
        ensures { IfOk result (λ map. map.entries ≡ self.now) }
    {
        let mut map = BTreeMap::new(*self.pairs.allocator());
        for (name, text) in &self.pairs {
            map.insert(name.clone()?, text.clone()?)?;
        }
        Ok(map)
    }

    /// Where a name stands, or where it belongs.
    fn search(&self, name: &Name) -> Result<usize, usize>
        ensures found { IfOk result (StandsAt name.now self.now) }
        ensures missing { IfErr result (BelongsAt name.now self.now) }
    {
        self.pairs.binary_search_by(|pair| pair.0.cmp(name))
    }
}

impl Clone for FewAttrs {
    ghost use Rattle.std.specs.Prelude.{◌≡◌};

    ghost is_clone = { λ attrs copied. copied ≡ attrs };

    fn clone(&self) -> Result<FewAttrs, AllocError> {
        let pairs = self.pairs.clone()?;
        Ok(FewAttrs { pairs })
    }
}
