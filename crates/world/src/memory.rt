//! Calls that refuse nothing while there is memory.

ghost use Rattle.std.specs.Prelude.{◌≡◌, Ok, IfOk, IsErr, OnErr};

use std::alloc::AllocError;
use stored_state::Refused;

/// What such a call gives.
pub fn in_memory<T>(given: Result<T, Refused>) -> Result<T, AllocError>
    ensures ok { IfOk result (λ value. given ≡ Ok value) }
    ensures err { OnErr result (IsErr given) }
{
    match given {
        Ok(value) => Ok(value),
        Err(_) => Err(AllocError),
    }
}
