//! Whether names are apart.

ghost use Rattle.std.specs.Prelude.{◌≡◌, ◌∷◌, IfOk};
ghost use Rattle.ticket_items.specs.Ids.{are_distinct};

use std::alloc::{AllocError, Global};
use std::collections::BTreeSet;
use ticket_tree::Id;

/// Whether no two of a controller and its workers have one name.
pub fn are_apart(alloc: Global, name: &Id, workers: &[Id]) -> Result<bool, AllocError>
    ensures { IfOk result (λ apart. apart ≡ are_distinct (name.now ∷ workers.now)) }
{
    let mut seen = BTreeSet::new(alloc);
    seen.insert(name.as_str())?;
    for worker in workers {
        if !seen.insert(worker.as_str())? {
            return Ok(false);
        }
    }
    Ok(true)
}
