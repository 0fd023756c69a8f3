//! From bytes to a controller in its beginning.

ghost use Rattle.std.specs.Prelude.{Ok, IfOk, IfErr};
ghost use Rattle.json_items.specs.Validation.{Answers};
ghost use Rattle.json_profile.specs.ReadAs.{IsReadAs, IsRefusalOf};
ghost use Rattle.controller_form.specs.Openings.OpeningForm as form;

use crate::openings::opening::Opening;
use crate::openings::raw_shop::RawShop;
use json_items::{Raw, check_members, find_two};
use json_source::{Scratch, Source, tree_of};
use master_core::Master;
use std::alloc::Global;
use ticket_tree::Refusal;
use worker_core::Worker;

/// The master that a value begins.
fn master_opening<S: Source>(alloc: Global, value: &S) -> Result<Opening, Refusal>
    ensures { Answers result (form.master_read (S.content value.now)) }
{
    check_members(value, &["Master", "Ticket", "Workers"])?;
    let shop = RawShop::read_whole(alloc, value)?;
    let master = Master::new(alloc, shop.master, shop.workers, shop.ticket)?;
    Ok(Opening::Master(master))
}

/// The worker that a value begins.
fn worker_opening<S: Source>(alloc: Global, value: &S) -> Result<Opening, Refusal>
    ensures { Answers result (form.worker_read (S.content value.now)) }
{
    check_members(value, &["Master", "Worker"])?;
    let (name, master) = find_two(alloc, value, "Worker", "Master")??;
    let worker = Worker::new(alloc, name, master)?;
    Ok(Opening::Worker(worker))
}

/// The controller that a value begins.
fn opening_in<S: Source>(alloc: Global, value: &S) -> Result<Opening, Refusal>
    ensures { Answers result (form.opening_read (S.content value.now)) }
{
    match value.member("Worker") {
        Some(_) => worker_opening(alloc, value),
        None => master_opening(alloc, value),
    }
}

/// The controller that bytes begin (our own): a worker where they have a member `Worker`, and else
/// a master. Refuses the first of `NotJson`, `NotProfile`, `BadId`, `BadText`, `ReservedStatus`,
/// `DuplicateId`, `TooDeep`, `UnresolvedLink` and `SameName` (our own: where two of the names are
/// equal), each looked for in all of it before the next one is; `Memory` may come before any.
pub fn opening_of(alloc: Global, bytes: &[u8]) -> Result<Opening, Refusal>
    // Proved: Bytes are read as the controller that begins so.
    // By `ok`, `refused`.
    ensures ok { IfOk result (λ o. IsReadAs form.opening_read bytes.now (Ok o)) }
    ensures refused { IfErr result (IsRefusalOf form.opening_read bytes.now) }
{
    let mut scratch = Scratch::new(alloc);
    let tree = tree_of(alloc, bytes, &mut scratch)?;
    opening_in(alloc, &tree)
}
