//! Those of a line who wait on, and those who don't.

ghost use Rattle.std.specs.Prelude.{IfOk};
ghost use Rattle.rounds.specs.Parted.{IsParted, is_late};

use crate::errand::Errand;
use std::alloc::{AllocError, Global};

/// Some of a line, and the others.
pub type Parted<S> = (Vec<Errand<S>>, Vec<Errand<S>>);

/// Those of a line who may wait on at this moment, and those who waited as long as they may.
pub fn late_and_waiting<S: Drop>(
    alloc: Global,
    errands: Vec<Errand<S>>,
    now: u64,
) -> Result<Parted<S>, AllocError>
    // Proved: Those of a line who waited as long as they may, be it for a message or for an order,
    // are told from the others, both in their order.
    ensures { IfOk result (λ parted. IsParted (is_late now) errands.items parted.0.items
        parted.1.items) }
{
    let mut left = Vec::with_capacity(alloc, errands.len())?;
    let mut late = Vec::with_capacity(alloc, errands.len())?;
    for one in errands {
        if one.waiting.asked.deadline() <= now {
            late.push(one)?;
        } else {
            left.push(one)?;
        }
    }
    Ok((left, late))
}
