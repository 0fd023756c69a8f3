use std::alloc::{AllocError, Global};
use stored_state::Addressee;
use ticket_items::Id;
use ticket_tree::Duplicate;

/// The controller that a file is for (our own).
#[derive(Drop)]
pub enum Owner {
    /// Any.
    Any,
    /// The one of this name.
    Named(Id),
    /// The worker of the first name whose master has the second.
    WorkerOf(Id, Id),
}

impl Owner {
    ghost use Rattle.std.specs.Prelude.{◌≡◌, IfOk};
    ghost use Rattle.stored_state.specs.Addressee.{is_addressed};
    ghost use Rattle.stored_state.specs.declared.any_controller.AnyController.{AnyController};
    ghost use Rattle.shop_folder.specs.Owner.{addressed_owner, is_owner};

    /// As one that is addressed.
    pub fn as_addressee(&self) -> Addressee<'_>
        // Proved: Whose a file is addresses the controllers that the file is for, and no others.
        // By `owner`, `same`; `Owner::copy`.
        ensures owner { addressed_owner result ≡ self.now }
        ensures same { (c : AnyController) → is_addressed result c ≡ is_owner self.now c }
    {
        match self {
            Owner::Any => Addressee::Any,
            Owner::Named(name) => Addressee::Named(name.as_str()),
            Owner::WorkerOf(name, master) => Addressee::WorkerOf(name.as_str(), master.as_str()),
        }
    }

    pub fn copy(&self, alloc: Global) -> Result<Owner, AllocError>
        ensures { IfOk result (λ owner. owner ≡ self.now) }
    {
        match self {
            Owner::Any => Ok(Owner::Any),
            Owner::Named(name) => Ok(Owner::Named(name.copy(alloc)?)),
            Owner::WorkerOf(name, master) => {
                let name = name.copy(alloc)?;
                Ok(Owner::WorkerOf(name, master.copy(alloc)?))
            }
        }
    }
}
