//! What a controller shows.

ghost use Rattle.std.specs.Prelude.{◌≡◌, Some, IfOk, IfSome};
ghost use Rattle.controller_form.specs.ShownMaster as masters;
ghost use Rattle.controller_form.specs.States.WorkerForm.{worker_state_read};
ghost use Rattle.file_commands.specs.Shown as shown;
ghost use Rattle.shop_day.specs.Files as files;
ghost use Rattle.stored_state.specs.Seat.{kept_in};

use controller_form::push_shown;
use file_commands::worker_text;
use keepers::Keep;
use master_core::Master;
use std::alloc::{AllocError, Global};
use stored_state::{KeptSeat, Seat};
use ticket_tree::Id;
use worker_core::Worker;
use world::Seats;

/// What a master shows.
fn master_text(alloc: Global, master: &Master) -> Result<Vec<u8>, AllocError>
    ensures { IfOk result (λ text. text.items ≡ masters.master_text master.now) }
{
    let mut text = Vec::new(alloc);
    match push_shown(alloc, &mut text, master) {
        Ok(()) => Ok(text),
        Err(_) => Err(AllocError),
    }
}

/// What the master shows, where it is known which it is.
fn shown_by_master<K: Keep>(
    alloc: Global,
    shop: &Seats<KeptSeat<Master, K>, KeptSeat<Worker, K>>,
) -> Result<Option<Vec<u8>>, AllocError>
    ensures { IfOk result (λ found. IfSome found (λ text. text.items
        ≡ masters.master_text shop.now.controllers.master)) }
{
    match shop.master() {
        Some(master) => Ok(Some(master_text(alloc, master)?)),
        None => Ok(None),
    }
}

/// What a worker shows, where it is known which it is.
fn shown_by_seat<K: Keep>(
    alloc: Global,
    seat: &KeptSeat<Worker, K>,
) -> Result<Option<Vec<u8>>, AllocError>
    ensures { IfOk result (λ found. IfSome found (λ text. text.items
        ≡ shown.worker_text (kept_in worker_state_read K.held seat.now))) }
{
    match seat.controller() {
        Some(worker) => Ok(Some(worker_text(alloc, worker)?)),
        None => Ok(None),
    }
}

/// What the controller of a name shows, where there is one and it is known which it is.
pub fn shown_by<K: Keep>(
    alloc: Global,
    shop: &Seats<KeptSeat<Master, K>, KeptSeat<Worker, K>>,
    name: &Id,
) -> Result<Option<Vec<u8>>, AllocError>
    ensures { IfOk result (λ found. IfSome found (λ text.
        files.shown_of shop.now.controllers name.now ≡ Some text.items)) }
{
    if name == shop.master_seat().name() {
        return shown_by_master(alloc, shop);
    }
    match shop.worker_seat(name) {
        Some(seat) => shown_by_seat(alloc, seat),
        None => Ok(None),
    }
}
