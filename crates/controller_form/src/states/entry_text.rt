//! Printing the entries of a worker, as they are stored.

ghost use Rattle.std.specs.Prelude.{◌≡◌, ◌∷◌, codes, IfSome, OnOk};
ghost use Rattle.std.specs.List.{All};
ghost use Rattle.json.specs.Token.{Token as TokenSeen};
ghost use Rattle.serde_json.specs.Data.{array, no_members};
ghost use Rattle.json_items.specs.Listed.{data_items};
ghost use Rattle.json_text.specs.Printed.{data_tokens, AreItemsPrinted, AreMembersPrinted};
ghost use Rattle.json_text.specs.Printed.{IsAppended, IsPrinted, IsReadAgain};
ghost use Rattle.controller_form.specs.States.EntryForm as form;
ghost use Rattle.controller_form.specs.States.StateFormat.{written_format};
ghost use Rattle.controller_form.specs.States.Writable.{IsWritableEntry, IsWritablePart};

use crate::states::stage_word::stage_word;
use json::Writer;
use json_profile::print_part;
use json_text::{print_member, print_text};
use std::alloc::{AllocError, Global};
use ticket_tree::Part;
use worker_core::{Entry, Stage};

/// Prints the end of the work on a part that was given up.
fn print_end(out: &mut Writer, phase: Stage) -> Result<(), AllocError>
    ensures { OnOk result (AreMembersPrinted (form.with_end phase no_members) out.old out.new) }
{
    match phase {
        Stage::Closed(end) => print_text(out, "End", end.word()),
        _ => Ok(()),
    }
}

/// Prints the part that there is, which is read again.
fn print_some_part(alloc: Global, out: &mut Writer, part: &Option<Part>) -> Result<(), AllocError>
    ensures printed { OnOk result
        (AreMembersPrinted (form.with_part part.now no_members) out.old out.new) }
    ensures known { OnOk result (IfSome part.now IsWritablePart) }
{
    match part {
        Some(part) => {
            out.key("Part")?;
            print_part(alloc, out, part)
        }
        None => Ok(()),
    }
}

/// Prints an entry, whose part is read again.
fn print_entry(alloc: Global, out: &mut Writer, entry: &Entry) -> Result<(), AllocError>
    ensures printed { OnOk result (IsPrinted
        (form.entry_data written_format entry.now) out.old out.new) }
    ensures known { OnOk result (IsWritableEntry entry.now) }
{
    let id = entry.spawn_id.to_id(alloc)?;
    out.begin_object()?;
    print_member(out, "At", &entry.at)?;
    print_end(out, entry.phase)?;
    print_member(out, "ID", &id)?;
    print_some_part(alloc, out, &entry.part)?;
    print_text(out, "Phase", stage_word(entry.phase))?;
    out.end_object()
}

/// Prints entries one after another, whose parts are read again.
fn print_each_entry(alloc: Global, out: &mut Writer, entries: &[Entry]) -> Result<(), AllocError>
    ensures printed { OnOk result
        (AreItemsPrinted (form.entry_data written_format) entries.now out.old out.new) }
    ensures known { OnOk result (All IsWritableEntry entries.now) }
{
    for entry in entries {
        print_entry(alloc, out, entry)?;
    }
    Ok(())
}

/// Prints entries as a list under `Entries`, whose parts are read again.
pub fn print_entries(alloc: Global, out: &mut Writer, entries: &[Entry]) -> Result<(), AllocError>
    ensures printed { OnOk result (IsAppended
        (TokenSeen.key (codes "Entries")
        ∷ data_tokens (array (data_items (form.entry_data written_format) entries.now)))
        out.old out.new) }
    ensures again { OnOk result
        (IsReadAgain (array (data_items (form.entry_data written_format) entries.now))) }
    ensures known { OnOk result (All IsWritableEntry entries.now) }
{
    out.key("Entries")?;
    out.begin_array()?;
    print_each_entry(alloc, out, entries)?;
    out.end_array()
}
