//! From bytes to a script.

ghost use Rattle.std.specs.Prelude.{Ok, IfOk, IfErr};
ghost use Rattle.std.specs.List.{list_all};
ghost use Rattle.json_items.specs.Validation.{Answers, Reads, on_both};
ghost use Rattle.controller_form.specs.Openings.ShopForm.{shop_has_names, shop_has_texts};
ghost use Rattle.world_script.specs.EventForm.{event_has_names, event_has_texts};
ghost use Rattle.world_script.specs.Script.{IsReadAs, IsReadAsRunning, IsRefusalOf};
ghost use Rattle.world_script.specs.Script.{IsRefusalOfRunning, parts_in, script_in};

use crate::event::InShop;
use crate::script::Script;
use controller_form::RawShop;
use json_items::{Form, Raw, Validation, check_members, find_list_in, text_under, zip};
use json_source::{Scratch, Source, tree_of};
use std::alloc::Global;
use ticket_tree::{Items, Refusal};
use world_items::Event;

/// What is found of the shop and the events of a script, in which controllers may stop or not.
/// Refuses `NotProfile`, and `Memory`.
fn find_parts<S: Source>(
    alloc: Global,
    value: &S,
    stops: bool,
) -> Result<Validation<(RawShop, Items<Event>)>, Refusal>
    ensures { Reads (on_both shop_has_names (list_all event_has_names))
        (on_both shop_has_texts (list_all event_has_texts)) result
        (parts_in stops (S.content value.now)) }
{
    check_members(value, &["Events", "Master", "Ticket", "Workers"])?;
    let master = text_under(value, "Master").ok_or(Refusal::NotProfile)?;
    let shop = RawShop::find(alloc, value)?;
    let events = find_list_in(alloc, value, "Events", &InShop { master, stops })?;
    Ok(zip(shop, events))
}

/// The script that a value is, in which controllers may stop or not, or its first refusal.
fn script_in<S: Source>(alloc: Global, value: &S, stops: bool) -> Result<Script, Refusal>
    ensures { Answers result (script_in stops (S.content value.now)) }
{
    let (shop, events) = find_parts(alloc, value, stops)??;
    let shop = shop.build(alloc)?;
    Ok(Script {
        master: shop.master,
        workers: shop.workers,
        ticket: shop.ticket,
        events,
    })
}

/// The script that bytes are. Refuses the first of `NotJson`, `NotProfile`, `BadId` (also where a
/// SpawnID names no spawn), `BadText`, `ReservedStatus`, `DuplicateId`, `TooDeep`, `UnresolvedLink`
/// and `SameName` (our own: where two of the names of the master and its workers are equal), each
/// looked for in all of it before the next one is; `Memory` may come before any.
pub fn script_of(alloc: Global, bytes: &[u8]) -> Result<Script, Refusal>
    // Proved: Bytes are read as the script that the form says, or refused for the first fault; so
    // is one in which no controller stops.
    // By `ok`, `refused`; `running_script_of`: `ok`, `refused`.
    ensures ok { IfOk result (λ script. IsReadAs bytes.now (Ok script)) }
    ensures refused { IfErr result (IsRefusalOf bytes.now) }
{
    let mut scratch = Scratch::new(alloc);
    let tree = tree_of(alloc, bytes, &mut scratch)?;
    script_in(alloc, &tree, true)
}

/// The script that bytes are, in which no controller stops. Refuses what `script_of` does, and
/// where a controller stops, also at a restart, `NotProfile`.
pub fn running_script_of(alloc: Global, bytes: &[u8]) -> Result<Script, Refusal>
    ensures ok { IfOk result (λ script. IsReadAsRunning bytes.now (Ok script)) }
    ensures refused { IfErr result (IsRefusalOfRunning bytes.now) }
{
    let mut scratch = Scratch::new(alloc);
    let tree = tree_of(alloc, bytes, &mut scratch)?;
    script_in(alloc, &tree, false)
}
