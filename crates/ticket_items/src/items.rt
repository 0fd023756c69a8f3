use crate::ancestor::Ancestor;
use crate::audit::Audit;
use crate::duplicate::{Duplicate, copies};
use crate::id::Id;
use crate::link::Link;
use crate::res_mark::ResMark;
use crate::resource::Resource;
use crate::spawn_id::SpawnId;
use std::alloc::AllocError;
use std::marker::Model;

/// Ids in order, such as those that an audit tells. An id may stand twice.
pub type Ids = Items<Id>;

/// The links of a node (JDF 1.5, 3.9), in order. The same link may stand twice.
pub type Links = Items<Link>;

/// The resources of a node's pool (JDF 1.5, 3.8), in order.
pub type Resources = Items<Resource>;

/// The audits of a node's pool (JDF 1.5, 3.11), in order.
pub type Audits = Items<Audit>;

/// The nodes above the root of a part, from the root of the ticket to the parent.
pub type Ancestors = Items<Ancestor>;

/// Spawns, such as those that copied a resource, in order.
pub type SpawnIds = Items<SpawnId>;

/// What resources show of spawns, in order.
pub type ResMarks = Items<ResMark>;

/// A list, which contracts see as that list alone.
#[derive(Drop)]
pub struct Items<T> {
    pub(crate) items: Vec<T>,
}

impl<T> Model for Items<T> {
    ghost use Rattle.std.specs.Prelude.{List};

    ghost Value = { List T };

    ghost view = { λ a. a.items.items };
}

impl<T: Drop> Items<T> {
    ghost use Rattle.std.specs.Prelude.{◌≡◌, ◌∷◌, ◌++◌, [], OnOk, OnErr};

    /// The list of these.
    pub fn new(items: Vec<T>) -> Items<T>
        // Proved: A list is what it was made of, and grows at its end.
        // By `Items::as_slice`, `Items::into_vec`; `Items::push`: `ok`, `err`.
        ensures { result ≡ items.items }
    {
        Items { items }
    }

    /// What is in it, in order.
    pub fn as_slice(&self) -> &[T]
        ensures { result.now ≡ self.now }
    {
        self.items.as_slice()
    }

    /// What is in it, by itself.
    pub fn into_vec(self) -> Vec<T>
        ensures { result.items ≡ self }
    {
        let Items { items } = self;
        items
    }

    /// Puts an item last. Without memory nothing changes.
    pub fn push(&mut self, item: T) -> Result<(), AllocError>
        ensures ok { OnOk result (self.new ≡ self.old ++ item ∷ []) }
        ensures err { OnErr result (self.new ≡ self.old) }
    {
        self.items.push(item)?;
        Ok(())
    }
}

impl<T: Duplicate> Clone for Items<T> {
    ghost use Rattle.std.specs.Prelude.{◌≡◌};

    ghost is_clone = { λ items copied. copied ≡ items };

    fn clone(&self) -> Result<Items<T>, AllocError> {
        let items = copies(*self.items.allocator(), self.items.as_slice())?;
        Ok(Items { items })
    }
}

impl<T: Duplicate> Duplicate for Items<T> {
    ghost equal = { λ _ _ same. same };
}

impl<T: PartialEq> PartialEq for Items<T> {
    ghost use Rattle.std.specs.Cmp.Lexicographic.{pointwise, lists_per};

    ghost eq = { pointwise T.eq };

    ghost laws = { lists_per T.laws };

    fn eq(&self, other: &Items<T>) -> bool {
        self.items.as_slice() == other.items.as_slice()
    }
}
