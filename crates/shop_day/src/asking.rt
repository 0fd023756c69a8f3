//! What is asked of a controller by bytes.

ghost use Rattle.std.specs.Prelude.{◌≡◌, ◌⊎◌, Ok, Some, IfErr, IfOk};
ghost use Rattle.std.specs.Option.{option_map};
ghost use Rattle.ticket_items.specs.Ids.{mem};
ghost use Rattle.controller_form.specs.Orders.MasterForm.{master_order_read};
ghost use Rattle.controller_form.specs.Orders.WorkerForm.{worker_order_read};
ghost use Rattle.json_profile.specs.ReadAs.{IsReadAs, IsRefusalOf};
ghost use Rattle.shop_day.specs.Lines as lines;
ghost use Rattle.stored_state.specs.Seat.{read_in};
ghost use Rattle.world.specs.Showing.{shows};
ghost use Rattle.world.specs.State as state;
ghost use Rattle.world_items.specs.declared.what.What.TheVariants.{MasterOrder, WorkerOrder};

use controller_form::{master_order_of, worker_order_of};
use json_source::{Scratch, tree_of};
use keepers::Keep;
use master_core::Master;
use std::alloc::Global;
use stored_state::{KeptSeat, Refused, Seat};
use streams::Fault;
use ticket_tree::{Duplicate, Id, Refusal};
use worker_core::Worker;
use world::Seats;
use world_items::What;

/// The order to a master that bytes are.
fn master_order(alloc: Global, bytes: &[u8]) -> Result<master_core::Order, Refusal>
    ensures ok { IfOk result (λ order. IsReadAs master_order_read bytes.now (Ok order)) }
    ensures refused { IfErr result (IsRefusalOf master_order_read bytes.now) }
{
    let mut scratch = Scratch::new(alloc);
    let tree = tree_of(alloc, bytes, &mut scratch)?;
    master_order_of(alloc, &tree)
}

/// The order to a worker that bytes are.
fn worker_order(alloc: Global, bytes: &[u8]) -> Result<worker_core::Order, Refusal>
    ensures ok { IfOk result (λ order. IsReadAs worker_order_read bytes.now (Ok order)) }
    ensures refused { IfErr result (IsRefusalOf worker_order_read bytes.now) }
{
    let mut scratch = Scratch::new(alloc);
    let tree = tree_of(alloc, bytes, &mut scratch)?;
    worker_order_of(alloc, &tree)
}

/// What happens by an order to a master.
fn asked_of_master(alloc: Global, bytes: &[u8]) -> Result<What, Refusal>
    ensures ok { IfOk result (λ what. option_map MasterOrder
        (read_in master_order_read bytes.now) ≡ Some what) }
    ensures refused { IfErr result (IsRefusalOf master_order_read bytes.now) }
{
    Ok(What::MasterOrder(master_order(alloc, bytes)?))
}

/// What happens by an order to the worker of a name.
fn asked_of_worker(alloc: Global, name: &Id, bytes: &[u8]) -> Result<What, Refusal>
    ensures ok { IfOk result (λ what. option_map (WorkerOrder name.now)
        (read_in worker_order_read bytes.now) ≡ Some what) }
    ensures refused { IfErr result (IsRefusalOf worker_order_read bytes.now) }
{
    let name = name.copy(alloc)?;
    Ok(What::WorkerOrder(name, worker_order(alloc, bytes)?))
}

/// Whether a worker of the shop has a name.
fn is_worker<K: Keep>(shop: &Seats<KeptSeat<Master, K>, KeptSeat<Worker, K>>, name: &Id) -> bool
    ensures { result ≡ mem name.now (shows shop.now).shop.workers }
{
    // A shop is kept in order: that is known where its messages are named.
    let _ = shop.messages();
    shop.worker_seat(name).is_some()
}

/// What happens by an order to the controller of a name. Refuses as `Device` `LoadFailed` where
/// nobody has the name; and as `Input` what the bytes are refused for, and `Memory`.
pub fn asked_of<K: Keep>(
    alloc: Global,
    shop: &Seats<KeptSeat<Master, K>, KeptSeat<Worker, K>>,
    name: &Id,
    bytes: &[u8],
) -> Result<What, Fault>
    ensures ok { IfOk result (λ what. lines.order_in (shows shop.now).shop name.now bytes.now
        ≡ Some what) }
    ensures refused { IfErr result (λ fault. lines.IsFailed fault
        ⊎ lines.IsNoOrder (shows shop.now).shop name.now bytes.now fault) }
    ensures kept { state.IsConsistent shop.now }
{
    // A shop is kept in order: that is known where its messages are named.
    let _ = shop.messages();
    if name == shop.master_seat().name() {
        return Ok(asked_of_master(alloc, bytes)?);
    }
    if !is_worker(shop, name) {
        return Err(Fault::Device(Refused::LoadFailed));
    }
    Ok(asked_of_worker(alloc, name, bytes)?)
}
