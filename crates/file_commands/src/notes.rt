//! What is noted of parts that are too large to come back soon.

ghost use Rattle.std.specs.Prelude.{◌≡◌, ◌++◌, string_bytes, IfOk, OnOk};
ghost use Rattle.file_commands.specs.Notes as noted;
ghost use Rattle.stored_state.specs.Opened.{controller_in};

use controller::Reply;
use json_profile::push_part_text;
use keepers::Keep;
use std::alloc::{AllocError, Global};
use stored_state::AnyKept;
use ticket_tree::{Part, Refusal};
use worker_core::Entry;

/// How many bytes a message has at most over HTTP.
pub(crate) const MESSAGE_BYTES: usize = 1_048_576;

/// From how many bytes on a part is noted: three quarters of these.
pub(crate) const LARGE_PART_BYTES: usize = 786_432;

/// How many bytes the text of a part has.
fn part_size(alloc: Global, part: &Part) -> Result<usize, AllocError>
    ensures { IfOk result (λ size. size ≡ noted.part_size part.now) }
{
    let mut text = Vec::new(alloc);
    push_part_text(alloc, &mut text, part)?;
    Ok(text.as_slice().len())
}

/// The note on the part of a spawn, which has so many bytes.
fn note_of(alloc: Global, spawn: u32, size: usize) -> Result<String, AllocError>
    ensures { IfOk result (λ note. string_bytes note ≡ noted.note_of spawn size) }
{
    format!(in alloc;
        "Note: the part of S{spawn} has {size} bytes; over HTTP a message has {MESSAGE_BYTES} at most\n"
    )
}

/// Appends the note on an entry's part, if it keeps one that is large.
fn push_note(alloc: Global, notes: &mut Vec<u8>, entry: &Entry) -> Result<(), AllocError>
    ensures { OnOk result (notes.new.items ≡ notes.old.items ++ noted.entry_note entry.now) }
{
    let Some(part) = &entry.part else {
        return Ok(());
    };
    let size = part_size(alloc, part)?;
    if size < LARGE_PART_BYTES {
        return Ok(());
    }
    let note = note_of(alloc, entry.spawn_id.number(), size)?;
    notes.extend_from_slice(note.as_bytes())
}

/// The notes on the parts of entries.
fn notes_on(alloc: Global, entries: &[Entry]) -> Result<Vec<u8>, AllocError>
    ensures { IfOk result (λ notes. notes.items ≡ noted.notes_on entries.now) }
{
    let mut notes = Vec::new(alloc);
    for entry in entries {
        push_note(alloc, &mut notes, entry)?;
    }
    Ok(notes)
}

/// The notes on what a controller keeps. Refuses `Memory` alone.
pub(crate) fn notes_of<K: Keep>(alloc: Global, opened: &AnyKept<K>) -> Result<Vec<u8>, AllocError>
    ensures { IfOk result (λ notes. notes.items ≡ noted.notes_of (controller_in opened.now)) }
{
    match opened {
        AnyKept::Master(_) => Ok(Vec::new(alloc)),
        AnyKept::Worker(kept) => notes_on(alloc, kept.controller().entries()),
    }
}

/// The notes behind an order's reply: of an edit those on what the controller keeps then.
pub fn notes_of_order<K: Keep>(
    alloc: Global,
    reply: &Result<Reply, Refusal>,
    opened: &AnyKept<K>,
) -> Result<Vec<u8>, AllocError>
    ensures { IfOk result (λ notes. notes.items
        ≡ noted.notes_of_order reply.now (controller_in opened.now)) }
{
    match reply {
        Ok(Reply::Edited) => notes_of(alloc, opened),
        _ => Ok(Vec::new(alloc)),
    }
}
