use crate::attrs::Attrs;
use crate::duplicate::Duplicate;
use crate::id::Id;
use crate::items::Items;
use crate::name::Name;
use crate::pool::{place_in, place_in_from};
use crate::text::Text;
use std::alloc::AllocError;

/// A resource of a node's pool (JDF 1.5, 3.8): what a node needs or makes, such as paper, plates or
/// printed sheets.
#[derive(Clone, Drop)]
pub struct Resource {
    pub id: Id,
    /// The name of the resource's element, such as `Media`.
    pub name: Name,
    pub class: Name,
    pub status: Name,
    pub attrs: Attrs,
}

impl Resource {
    ghost use Rattle.std.specs.Prelude.{◌≡◌};
    ghost use Rattle.ticket_items.specs.Resource.{is_alike};

    /// Whether it has the id, name and Class of another, as a resource and its copy have.
    pub fn is_alike(&self, other: &Resource) -> bool
        // Proved: Whether two resources have one id, name and Class is told.
        ensures { result ≡ is_alike self.now other.now }
    {
        self.id == other.id && self.name == other.name && self.class == other.class
    }
}

impl Duplicate for Resource {
    ghost use Rattle.std.proofs.Common.{rules};

    ghost equal = { Prim.search rules };
}

impl Items<Resource> {
    ghost use Rattle.std.specs.Prelude.{◌≡◌, true, map, IfSome, OnOk, OnErr};
    ghost use Rattle.std.specs.List.{position};
    ghost use Rattle.std.specs.Str.{bytes_eq};
    ghost use Rattle.ticket_items.specs.Attrs.{with_attr};
    ghost use Rattle.ticket_items.specs.Resource.{with_item};
    ghost use Rattle.ticket_items.specs.Ids.{are_distinct};

    /// Gives the resource of an id another Status.
    pub fn set_status(&mut self, id: &Id, status: Name)
        // Wants: resources of distinct ids.
        requires { are_distinct (map (λ x. x.id) self.old) ≡ true }
        // Proved: A resource changes by its id in its list.
        // By `Items::set_attr`: `ok`, `err`; `Items::replace`: `items`, `place`.
        ensures { self.new ≡ with_item id.now (λ x. record x { status = status }) self.old }
    {
        if let Some(place) = place_in(self.items.as_slice(), id) {
            self.items[place].status = status;
        }
    }

    /// Gives the resource of an id an attribute.
    pub fn set_attr(&mut self, id: &Id, name: Name, value: Text) -> Result<(), AllocError>
        // Wants: resources of distinct ids.
        requires { are_distinct (map (λ x. x.id) self.old) ≡ true }
        ensures ok { OnOk result (self.new
            ≡ with_item id.now (λ x. record x { attrs = with_attr name value x.attrs }) self.old) }
        ensures err { OnErr result (self.new ≡ self.old) }
    {
        if let Some(place) = place_in(self.items.as_slice(), id) {
            self.items[place].attrs.set(name, value)?;
        }
        Ok(())
    }

    /// Puts a resource in the place of the one of its id, which is looked for from a place on and
    /// then in front of it. Returns where it stands.
    pub fn replace(&mut self, resource: Resource, from: usize) -> usize
        // Wants: resources of distinct ids.
        requires { are_distinct (map (λ x. x.id) self.old) ≡ true }
        ensures items { self.new ≡ with_item resource.id (λ _. resource) self.old }
        ensures place { IfSome (position (λ x. bytes_eq x.id resource.id) self.old)
            (λ k. result ≡ k) }
    {
        match place_in_from(self.items.as_slice(), &resource.id, from) {
            None => from,
            Some(place) => {
                self.items[place] = resource;
                place
            }
        }
    }
}
