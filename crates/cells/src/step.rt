ghost use Rattle.std.specs.Prelude.{ℕ, List, IfOk};

use std::alloc::{AllocError, Global};

/// A step of the value of a cell (our own). It may be made anew, of another value.
pub trait Step: Drop {
    /// What is given out once it is saved.
    type Given: Drop;

    /// It leads from these bytes to those, and gives this.
    ghost makes: { Self → List ℕ → List ℕ → Self.Given → Type 0 };

    /// The bytes that it leads to from these, and what it gives.
    fn make(&self, alloc: Global, bytes: &[u8]) -> Result<(Vec<u8>, Self::Given), AllocError>
        // Proved: A step makes of the bytes what it says.
        ensures { IfOk result (λ made. makes self.now bytes.now made.0.items made.1) };
}
