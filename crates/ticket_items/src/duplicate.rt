//! Equal copies.

ghost use Rattle.std.specs.Prelude.{◌≡◌, IfOk};

use std::alloc::{AllocError, Global};

/// A type whose clones are equal to what they were cloned from.
pub trait Duplicate: Clone {
    ghost equal: { (x y : Self) → Self.is_clone x y → y ≡ x };

    /// An equal copy.
    final fn copy(&self, _alloc: Global) -> Result<Self, AllocError>
        // Proved: A copy is equal to what was copied.
        // By `copies`.
        ensures { IfOk result (λ copied. copied ≡ self.now) }
    {
        self.clone()
    }
}

/// Equal copies of all items, in order.
pub fn copies<T: Duplicate>(alloc: Global, items: &[T]) -> Result<Vec<T>, AllocError>
    ensures { IfOk result (λ copied. copied.items ≡ items.now) }
{
    Vec::from_clones(alloc, items)
}
