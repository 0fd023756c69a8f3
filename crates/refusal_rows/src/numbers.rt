//! The number of a refusal beside its name.

ghost use Rattle.std.specs.Prelude.{◌≡◌, IfOk, string_bytes};
ghost use Rattle.refusal_rows.specs.Numbers as numbers;

use std::alloc::{AllocError, Global};

/// A number and a name, with a space between.
pub fn named_number(alloc: Global, number: u16, name: &str) -> Result<String, AllocError>
    // Proved: A number and a name are told with a space between.
    ensures { IfOk result (λ text. string_bytes text ≡ numbers.named_number number name.now) }
{
    format!(in alloc; "{number} {name}")
}
