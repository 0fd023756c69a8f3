//! What is open, as one JSON value.

ghost use Rattle.std.specs.Prelude.{◌≡◌, IfOk, OnOk};
ghost use Rattle.serde_json.specs.Data.{array, no_members};
ghost use Rattle.json_items.specs.Listed.{data_items};
ghost use Rattle.json_text.specs.Printed.{AreMembersPrinted, IsPrinted};
ghost use Rattle.shop_page.specs.ListJson as list;

use crate::open_work::OpenWork;
use crate::picked::{late_of, refused_works};
use crate::shop::Shop;
use json::Writer;
use json_text::{print_member, print_text, written_text};
use list_text::print_work;
use std::alloc::{AllocError, Global};

/// Prints the number of a refusal, if there is one.
fn print_refusal(out: &mut Writer, refusal: Option<u16>) -> Result<(), AllocError>
    ensures { OnOk result (AreMembersPrinted
        (list.with_refusal refusal no_members) out.old out.new) }
{
    match refusal {
        Some(number) => print_member(out, "Refused", &u64::from(number)),
        None => Ok(()),
    }
}

/// Prints of which work a message is and how it fares, at a time in seconds since 1970.
fn print_delivery(
    alloc: Global,
    out: &mut Writer,
    one: &OpenWork<'_>,
    now: u64,
) -> Result<(), AllocError>
    ensures { OnOk result (IsPrinted (list.delivery_data now one.now) out.old out.new) }
{
    let spawn = one.work.spawn_id.to_id(alloc)?;
    let seconds = now.saturating_sub(one.work.at);
    out.begin_object()?;
    print_text(out, "Controller", one.controller)?;
    print_refusal(out, one.refusal())?;
    print_member(out, "Seconds", &seconds)?;
    print_member(out, "SpawnID", &spawn)?;
    out.end_object()
}

/// Prints a list of those.
fn print_deliveries(
    alloc: Global,
    out: &mut Writer,
    works: &[OpenWork<'_>],
    now: u64,
) -> Result<(), AllocError>
    ensures { OnOk result (IsPrinted
        (array (data_items (list.delivery_data now) works.now)) out.old out.new) }
{
    out.begin_array()?;
    for one in works {
        print_delivery(alloc, out, one, now)?;
    }
    out.end_array()
}

/// Prints a list of open work, at a time in seconds since 1970.
fn print_works(
    alloc: Global,
    out: &mut Writer,
    works: &[OpenWork<'_>],
    now: u64,
) -> Result<(), AllocError>
    ensures { OnOk result (IsPrinted
        (array (data_items (list.open_data now) works.now)) out.old out.new) }
{
    out.begin_array()?;
    for one in works {
        print_work(alloc, out, one.name, one.work, None, now)?;
    }
    out.end_array()
}

/// Prints what is open of a shop.
fn print_list(
    alloc: Global,
    out: &mut Writer,
    shop: &Shop<'_>,
    works: &[OpenWork<'_>],
) -> Result<(), AllocError>
    ensures { OnOk result (IsPrinted (list.list_data shop.entry.now works.now) out.old out.new) }
{
    let refused = refused_works(alloc, works)?;
    let late = late_of(alloc, works, shop.now)?;
    let controllers = shop.controllers as u64;
    out.begin_object()?;
    print_member(out, "At", &shop.now)?;
    print_member(out, "Controllers", &controllers)?;
    out.key("Open")?;
    print_works(alloc, out, works, shop.now)?;
    out.key("Refused")?;
    print_deliveries(alloc, out, refused.as_slice(), shop.now)?;
    out.key("Waiting")?;
    print_deliveries(alloc, out, late.as_slice(), shop.now)?;
    out.end_object()
}

/// What is open of a shop, what of it was refused and what waits too long for an answer, as JSON.
/// Work is told as `list --json` tells it, but for the size of its message, which isn't made.
pub fn list_json(
    alloc: Global,
    shop: &Shop<'_>,
    works: &[OpenWork<'_>],
) -> Result<Vec<u8>, AllocError>
    // Proved: The work of a shop as JSON has each as `list --json` tells it, and each that was
    // refused or is late once more.
    ensures { IfOk result (λ text. text.items ≡ list.list_line shop.entry.now works.now) }
{
    let mut out = Writer::new(Vec::new(alloc));
    print_list(alloc, &mut out, shop, works)?;
    let mut text = written_text(out);
    text.push(b'\n')?;
    Ok(text)
}
