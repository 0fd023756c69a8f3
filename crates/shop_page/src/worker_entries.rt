//! What a worker shows, as JSON.

ghost use Rattle.std.specs.Prelude.{◌≡◌, IfOk, OnOk};
ghost use Rattle.serde_json.specs.Data.{array, no_members};
ghost use Rattle.json_items.specs.Listed.{data_items};
ghost use Rattle.json_text.specs.Printed.{AreMembersPrinted, IsPrinted};
ghost use Rattle.shop_page.specs.WorkerJson as shown;

use json::Writer;
use json_text::{print_member, print_part, print_text, written_text};
use std::alloc::{AllocError, Global};
use ticket_tree::Part;
use worker_core::{End, Entry, Stage, Worker};

/// How the work on a part ended, if it has.
fn end_of(stage: Stage) -> Option<End>
    ensures { result ≡ shown.end_of stage }
{
    match stage {
        Stage::Open | Stage::Declined => None,
        Stage::Done(how) | Stage::Closed(how) => Some(how),
    }
}

/// How far the work on a part is, in a word.
fn stage_word(stage: Stage) -> &'static str
    ensures { result.now ≡ shown.stage_word stage }
{
    match stage {
        Stage::Open => "Open",
        Stage::Done(_) => "Done",
        Stage::Closed(_) => "Closed",
        Stage::Declined => "Declined",
    }
}

/// Prints an end, if there is one.
fn print_end(out: &mut Writer, end: Option<End>) -> Result<(), AllocError>
    ensures { OnOk result (AreMembersPrinted (shown.with_end end no_members) out.old out.new) }
{
    match end {
        Some(how) => print_text(out, "End", how.word()),
        None => Ok(()),
    }
}

/// Prints a part, if there is one.
fn print_kept(alloc: Global, out: &mut Writer, part: &Option<Part>) -> Result<(), AllocError>
    ensures { OnOk result (AreMembersPrinted
        (shown.with_part part.now no_members) out.old out.new) }
{
    match part {
        Some(part) => {
            out.key("Part")?;
            print_part(alloc, out, part)
        }
        None => Ok(()),
    }
}

/// Prints an entry.
fn print_entry(alloc: Global, out: &mut Writer, entry: &Entry) -> Result<(), AllocError>
    ensures { OnOk result (IsPrinted (shown.entry_data entry.now) out.old out.new) }
{
    let spawn = entry.spawn_id.to_id(alloc)?;
    out.begin_object()?;
    print_member(out, "At", &entry.at)?;
    print_end(out, end_of(entry.phase))?;
    print_kept(alloc, out, &entry.part)?;
    print_text(out, "Phase", stage_word(entry.phase))?;
    print_member(out, "SpawnID", &spawn)?;
    out.end_object()
}

/// Prints a list of entries.
fn print_entries(alloc: Global, out: &mut Writer, entries: &[Entry]) -> Result<(), AllocError>
    ensures { OnOk result (IsPrinted
        (array (data_items shown.entry_data entries.now)) out.old out.new) }
{
    out.begin_array()?;
    for entry in entries {
        print_entry(alloc, out, entry)?;
    }
    out.end_array()
}

/// The entries of a worker in the order in which they were taken or declined, as a JSON array of
/// objects: when, how it ended, the part where it keeps one, how far, and the spawn.
pub fn worker_json(alloc: Global, worker: &Worker) -> Result<Vec<u8>, AllocError>
    // Proved: What a worker shows has each of its entries, with the part while it keeps one.
    ensures { IfOk result (λ text. text.items ≡ shown.worker_line worker.now) }
{
    let mut out = Writer::new(Vec::new(alloc));
    print_entries(alloc, &mut out, worker.entries())?;
    let mut text = written_text(out);
    text.push(b'\n')?;
    Ok(text)
}
