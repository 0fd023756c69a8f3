//! A shop in the beginning, each controller beside a keeper of its state.

ghost use Rattle.std.specs.Prelude.{◌≡◌, ◌∷◌, ◌++◌, [], IfOk, OnOk, map, true};
ghost use Rattle.controller_form.specs.States.WorkerForm.{worker_state_read};
ghost use Rattle.stored_state.specs.Seat.{kept_in};
ghost use Rattle.world.specs.State as state;

use crate::seats::Seats;
use keepers::Keep;
use master_core::Master;
use std::alloc::Global;
use stored_state::{Kept, KeptSeat, Refused, StoredController};
use ticket_tree::{Duplicate, Id, Ids, Refusal, Ticket};
use worker_core::Worker;

/// What gives each controller of a shop a keeper of its state.
pub trait Keepers<K: Keep>: Drop {
    /// A keeper for the controller of a name, which is honest.
    fn keeper_of(&mut self, alloc: Global, name: &Id) -> Result<K, Refused>
        // Proved: What gives a shop its keepers gives honest ones.
        ensures { IfOk result (λ keep. K.is_honest keep ≡ true) };
}

/// A controller beside a keeper, which holds its state.
fn new_seat<C: StoredController, K: Keep, S: Keepers<K>>(
    alloc: Global,
    keepers: &mut S,
    controller: C,
) -> Result<KeptSeat<C, K>, Refused>
    ensures { IfOk result (λ seat. kept_in C.state_read K.held seat ≡ controller) }
{
    match keepers.keeper_of(alloc, controller.name()) {
        Ok(keep) => {
            let beside = Kept::create(alloc, controller, keep)?;
            Ok(KeptSeat::of(beside))
        }
        Err(refused) => {
            drop(controller);
            Err(refused)
        }
    }
}

/// The worker of a name as it is in the beginning.
fn new_worker<K: Keep, S: Keepers<K>>(
    alloc: Global,
    keepers: &mut S,
    master: &Id,
    name: &Id,
) -> Result<KeptSeat<Worker, K>, Refused>
    ensures { IfOk result (λ seat. kept_in worker_state_read K.held seat
        ≡ state.new_worker master.now name.now) }
{
    let worker = Worker::new(alloc, name.copy(alloc)?, master.copy(alloc)?)?;
    new_seat(alloc, keepers, worker)
}

/// Pushes a seat, which is dropped where memory runs out.
fn push<T: Drop>(items: &mut Vec<T>, item: T) -> Result<(), Refused>
    ensures { OnOk result (items.new.items ≡ items.old.items ++ item ∷ []) }
{
    match items.push(item) {
        Ok(()) => Ok(()),
        Err(_) => Err(Refused::Core(Refusal::Memory)),
    }
}

/// The workers of these names as they are in the beginning.
fn new_workers<K: Keep, S: Keepers<K>>(
    alloc: Global,
    keepers: &mut S,
    master: &Id,
    names: &[Id],
) -> Result<Vec<KeptSeat<Worker, K>>, Refused>
    ensures { IfOk result (λ workers. map (kept_in worker_state_read K.held) workers.items
        ≡ map (state.new_worker master.now) names.now) }
{
    let mut workers = Vec::with_capacity(alloc, names.len())?;
    for name in names {
        push(&mut workers, new_worker(alloc, keepers, master, name)?)?;
    }
    Ok(workers)
}

/// A master, which takes its seat, and its workers. Nothing was sent.
fn shop_of<K: Keep, S: Keepers<K>>(
    alloc: Global,
    keepers: &mut S,
    master: Master,
    workers: Vec<KeptSeat<Worker, K>>,
) -> Result<Seats<KeptSeat<Master, K>, KeptSeat<Worker, K>>, Refused>
    requires { state.IsConsistent (state.state master
        (map (kept_in worker_state_read K.held) workers.items) []) }
    ensures { IfOk result (λ shop. shop ≡ state.state master
        (map (kept_in worker_state_read K.held) workers.items) []) }
{
    match new_seat(alloc, keepers, master) {
        Ok(master) => Ok(Seats::new(alloc, master, workers)),
        Err(refused) => {
            drop(workers);
            Err(refused)
        }
    }
}

/// A master of this name with this ticket, of which nothing is out, and workers of these names,
/// each beside a keeper, which holds its state from then on. Nothing was sent. Refuses `SameName`
/// where two of the names are equal, what no keeper is given for, `SaveFailed`, and `Memory`.
pub fn begin<K: Keep, S: Keepers<K>>(
    alloc: Global,
    keepers: &mut S,
    name: Id,
    workers: Ids,
    ticket: Ticket,
) -> Result<Seats<KeptSeat<Master, K>, KeptSeat<Worker, K>>, Refused>
    // Proved: A shop beside keepers begins as one in memory does.
    // By `is`, `kept`.
    ensures is { IfOk result (λ shop. shop ≡ state.opening name workers ticket) }
    ensures kept { IfOk result state.IsConsistent }
{
    let master = Master::new(alloc, name, workers, ticket)?;
    match new_workers(alloc, keepers, master.name(), master.workers()) {
        Ok(workers) => shop_of(alloc, keepers, master, workers),
        Err(refused) => {
            drop(master);
            Err(refused)
        }
    }
}
