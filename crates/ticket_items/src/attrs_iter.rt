use crate::name::Name;
use crate::text::Text;
use std::collections::btree_map::Iter;
use std::marker::Model;

/// What is left of the names and texts of attributes, in byte order of the names.
#[derive(Drop)]
pub struct AttrsIter<'a> {
    pub(crate) left: RestOfAttrs<'a>,
}

/// What is left of a list or of a map.
#[derive(Drop)]
pub(crate) enum RestOfAttrs<'a> {
    Few(&'a [(Name, Text)]),
    Many(Iter<'a, Name, Text>),
}

impl<'a> Model for AttrsIter<'a> {
    ghost use Rattle.ticket_items.specs.Attrs.{Pairs};

    ghost Value = { Pairs };

    ghost use Rattle.ticket_items.specs.declared.attrs_iter.RestOfAttrs.TheVariants.{Few, Many};

    ghost view = { λ a. elim a.left [ Few pairs ↦ pairs.now | Many pairs ↦ pairs ] };
}

impl<'a> Iterator for AttrsIter<'a> {
    type Item = (&'a Name, &'a Text);

    ghost use Rattle.std.specs.Prelude.{length};
    ghost use Rattle.std.specs.Iterator.{at_most};
    ghost use Rattle.std.specs.Map.Iter.{TakesFirst, deref_pair};

    ghost next_gives = { TakesFirst deref_pair };

    ghost remaining = { λ s. at_most (length s) };

    fn next(&mut self) -> Option<(&'a Name, &'a Text)> {
        match &mut self.left {
            RestOfAttrs::Few(pairs) => {
                let (first, others) = pairs.split_first()?;
                *pairs = others;
                Some((&first.0, &first.1))
            }
            RestOfAttrs::Many(pairs) => pairs.next(),
        }
    }
}
