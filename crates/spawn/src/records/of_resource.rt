//! What stands for a resource of a ticket outside it: its id, or a copy of it.

ghost use Rattle.std.specs.Prelude.{◌≡◌, Bool};
ghost use Rattle.std.specs.Option.{option_copied};
ghost use Rattle.ticket_items.specs.Resource.{is_alike};
ghost use Rattle.spawn.specs.OfResource as of;

use ticket_tree::{Id, Resource};

/// An id or a copy, which may be that of a resource.
pub trait OfResource {
    ghost use Rattle.ticket_items.specs.declared.resource.Resource.{Resource};

    ghost is_of: { Resource → Self → Bool };

    /// Whether it is the resource's id, or a copy of the resource.
    fn is_of(&self, resource: &Resource) -> bool
        // Proved: Whether an id or a copy is a resource's is told, and what stands behind the
        // first of some where it is.
        // By `behind`.
        ensures { result ≡ is_of resource.now self.now };
}

impl OfResource for Id {
    ghost is_of = { of.has_id };

    fn is_of(&self, resource: &Resource) -> bool {
        resource.id == *self
    }
}

impl OfResource for Resource {
    ghost is_of = { is_alike };

    fn is_of(&self, resource: &Resource) -> bool {
        resource.is_alike(self)
    }
}

/// The ids or copies behind the first, if that is of this resource.
pub fn behind<'a, T: OfResource>(items: &'a [T], resource: &Resource) -> Option<&'a [T]>
    ensures { option_copied result ≡ of.behind (T.is_of resource.now) items.now }
{
    let (first, later) = items.split_first()?;
    first.is_of(resource).then_some(later)
}
