//! Whether the names of a shop are apart.

ghost use Rattle.std.specs.Prelude.{◌≡◌, ◌∷◌};
ghost use Rattle.ticket_items.specs.Ids as ids;

use master_core::are_apart;
use std::alloc::Global;
use ticket_items::is_among;
use ticket_tree::Id;

/// Whether no two of the names are equal: each is looked for among those behind it.
fn are_distinct(names: &[Id]) -> bool
    ensures { result ≡ ids.are_distinct names.now }
{
    for index in 0..names.len() {
        if is_among(&names[index + 1..], &names[index]) {
            return false;
        }
    }
    true
}

/// Whether no two of a master and its workers have one name: by a set, and where there is no
/// memory for one, name by name.
pub fn are_names_apart(alloc: Global, master: &Id, workers: &[Id]) -> bool
    ensures { result ≡ ids.are_distinct (master.now ∷ workers.now) }
{
    match are_apart(alloc, master, workers) {
        Ok(apart) => apart,
        Err(_) => !is_among(workers, master) && are_distinct(workers),
    }
}
