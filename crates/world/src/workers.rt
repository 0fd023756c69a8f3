//! The workers of a shop, by their names.

ghost use Rattle.std.specs.Prelude.{◌≡◌, false, map, IfOk, IfErr};
ghost use Rattle.std.specs.List.{find, position};
ghost use Rattle.std.specs.Option.{option_copied};
ghost use Rattle.ticket_items.specs.Ids.{mem};
ghost use Rattle.world.specs.State as state;

use std::alloc::Global;
use stored_state::{MemorySeat, Seat};
use ticket_tree::{Duplicate, Id, Refusal};
use worker_core::Worker;

/// The workers of these names as they are in the beginning. Refuses `Memory` alone.
pub fn new_workers(
    alloc: Global,
    master: &Id,
    names: &[Id],
) -> Result<Vec<MemorySeat<Worker>>, Refusal>
    requires apart { mem master.now names.now ≡ false }
    ensures ok { IfOk result
        (λ workers. workers.items ≡ map (state.new_worker master.now) names.now) }
    ensures memory { IfErr result (λ e. e ≡ Refusal.Memory) }
{
    let mut workers = Vec::with_capacity(alloc, names.len())?;
    for name in names {
        let worker = Worker::new(alloc, name.copy(alloc)?, master.copy(alloc)?)?;
        workers.push(MemorySeat::new(alloc, worker)?)?;
    }
    Ok(workers)
}

/// The seat of the worker of a name.
pub fn seat_of<'a, W: Seat<Worker>>(workers: &'a [W], name: &Id) -> Option<&'a W>
    ensures { option_copied result
        ≡ find (λ seat. state.is_named name.now (W.kept seat)) workers.now }
{
    workers.iter().find(|seat| seat.name() == name)
}

/// Where the worker of a name stands.
pub fn place_of<W: Seat<Worker>>(workers: &[W], name: &Id) -> Option<usize>
    ensures { result ≡ position (λ seat. state.is_named name.now (W.kept seat)) workers.now }
{
    workers.iter().position(|seat| seat.name() == name)
}
