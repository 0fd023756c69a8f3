//! What `show` writes of a controller.

ghost use Rattle.std.specs.Prelude.{◌≡◌, ◌⊎◌, ◌++◌, ℕ, string_bytes, IfOk, IfErr, None, OnOk};
ghost use Rattle.controller_form.specs.ShownMaster as masters;
ghost use Rattle.stored_state.specs.Opened.{kept_of};
ghost use Rattle.file_commands.specs.Calls as calls;
ghost use Rattle.file_commands.specs.Calls.{IsNotOpened};
ghost use Rattle.file_commands.specs.Commands.{IsMoment, Shows, output_text};
ghost use Rattle.file_commands.specs.Opening.{IsNotLoaded};
ghost use Rattle.file_commands.specs.Shown as shown;
ghost use Rattle.streams.specs.declared.refused.Refused.TheVariants.{Core, ReadFailed};
ghost use Rattle.streams.specs.declared.fault.Fault.TheVariants.{Device, Input};
ghost use Rattle.ticket_items.specs.declared.refusal.Refusal.TheVariants.{Memory};

use crate::moment::moment_of;
use crate::noted::OutputWithNotes;
use crate::notes::notes_of;
use crate::opening::{locked_keep, open_keep};
use crate::pictured::{master_picture, worker_picture};
use crate::step::output_unrefused;
use controller_form::push_shown;
use json_profile::push_part_text;
use keepers::{Keep, Locks};
use master_core::Master;
use std::alloc::{AllocError, Global};
use std::time::Clock;
use stored_state::AnyKept;
use streams::Fault;
use ticket_tree::{Part, Refusal};
use worker_core::{End, Entry, Stage, Worker};

/// What a master shows: the text of its ticket with the marks of what is out, on a line of its own.
/// Refuses `Memory` alone.
fn master_text(alloc: Global, master: &Master) -> Result<Vec<u8>, Refusal>
    ensures ok { IfOk result (λ text. text.items ≡ masters.master_text master.now) }
    ensures memory { IfErr result (λ e. e ≡ Memory) }
{
    let mut text = Vec::new(alloc);
    push_shown(alloc, &mut text, master)?;
    Ok(text)
}

/// How far the work on a part is, in words.
fn stage_words(stage: Stage) -> &'static str
    ensures { result.now ≡ shown.stage_words stage }
{
    match stage {
        Stage::Open => "Open",
        Stage::Done(end) => end.word(),
        Stage::Closed(End::Completed) => "Closed Completed",
        Stage::Closed(End::Aborted) => "Closed Aborted",
        Stage::Declined => "Declined",
    }
}

/// The id of a spawn and words, with a space between.
fn entry_head(alloc: Global, spawn: u32, words: &str) -> Result<String, AllocError>
    ensures { IfOk result (λ head. string_bytes head ≡ shown.entry_head spawn words.now) }
{
    format!(in alloc; "S{spawn} {words}")
}

/// Appends the text of a part, if there is one, with a space before it.
fn push_part(alloc: Global, line: &mut Vec<u8>, part: &Option<Part>) -> Result<(), AllocError>
    ensures { OnOk result (line.new.items ≡ line.old.items ++ shown.part_tail part.now) }
{
    match part {
        None => Ok(()),
        Some(part) => {
            line.push(b' ')?;
            push_part_text(alloc, line, part)
        }
    }
}

/// The line of an entry.
fn entry_line(alloc: Global, entry: &Entry) -> Result<Vec<u8>, AllocError>
    ensures { IfOk result (λ line. line.items ≡ shown.entry_line entry.now) }
{
    let spawn = entry.spawn_id.number();
    let mut line = entry_head(alloc, spawn, stage_words(entry.phase))?.into_bytes();
    push_part(alloc, &mut line, &entry.part)?;
    line.push(b'\n')?;
    Ok(line)
}

/// Appends a line for each entry.
fn push_entries(alloc: Global, text: &mut Vec<u8>, entries: &[Entry]) -> Result<(), AllocError>
    ensures { OnOk result (text.new.items ≡ text.old.items ++ shown.entry_lines entries.now) }
{
    for entry in entries {
        text.extend_from_slice(entry_line(alloc, entry)?.as_slice())?;
    }
    Ok(())
}

/// What a worker shows: a line for each of its entries in the order in which their parts were taken
/// or declined, with the spawn's id; `Open`, `Completed` or `Aborted` and the part's text, or
/// `Closed` and one of the latter two where the part was given up, or `Declined`; and a space
/// between. Refuses `Memory` alone.
pub fn worker_text(alloc: Global, worker: &Worker) -> Result<Vec<u8>, AllocError>
    ensures { IfOk result (λ text. text.items ≡ shown.worker_text worker.now) }
{
    let mut text = Vec::new(alloc);
    push_entries(alloc, &mut text, worker.entries())?;
    Ok(text)
}

/// What a controller shows, or its picture at a moment in seconds since 1970. Refuses `Memory`
/// alone.
fn text_shown<K: Keep>(
    alloc: Global,
    opened: &AnyKept<K>,
    picture: bool,
    now: u64,
) -> Result<Vec<u8>, Refusal>
    ensures ok { IfOk result
        (λ text. text.items ≡ output_text picture now (kept_of opened.now).controller) }
    ensures memory { IfErr result (λ e. e ≡ Memory) }
{
    match opened {
        AnyKept::Master(kept) if picture => Ok(master_picture(alloc, kept.controller(), now)?),
        AnyKept::Worker(kept) if picture => Ok(worker_picture(alloc, kept.controller(), now)?),
        AnyKept::Master(kept) => master_text(alloc, kept.controller()),
        AnyKept::Worker(kept) => Ok(worker_text(alloc, kept.controller())?),
    }
}

/// What `show` writes of the controller that a keeper holds, which is what that shows or its
/// picture, and what it notes of it.
pub fn kept_shown<K: Keep>(
    alloc: Global,
    keep: K,
    picture: bool,
    now: u64,
) -> Result<OutputWithNotes, Fault>
    ensures ok { IfOk result (λ noted. Shows picture now K.is_honest K.held K.place keep
        noted.output.text.items noted.output.refused noted.notes.items) }
    ensures refused { IfErr result (λ fault. IsNotLoaded K.is_honest K.held K.load_fails keep fault
        ⊎ (fault ≡ Input (Core Memory))) }
{
    let opened = open_keep(alloc, keep)?;
    let output = output_unrefused(text_shown(alloc, &opened, picture, now)?);
    let notes = notes_of(alloc, &opened)?;
    Ok(OutputWithNotes { output, notes })
}

/// The same of the controller in a file.
fn file_shown<R: Locks>(
    rt: &R,
    alloc: Global,
    file: &str,
    picture: bool,
    now: u64,
) -> Result<OutputWithNotes, Fault>
    ensures ok { IfOk result (λ noted. Shows picture now calls.is_honest calls.file_bytes
        calls.place
        (calls.keep_in_file file.now) noted.output.text.items noted.output.refused
        noted.notes.items) }
    ensures refused { IfErr result (λ fault. IsNotOpened file.now fault
        ⊎ (fault ≡ Input (Core Memory))) }
{
    match locked_keep(rt, alloc, file) {
        Ok(keep) => kept_shown(alloc, keep, picture, now),
        Err(fault) => Err(fault),
    }
}

/// The moment of a picture: the one that is named, or that of the clock. Where none is wanted the
/// clock isn't looked at.
pub fn moment_of_picture<R: Clock>(clock: &R, picture: bool, at: Option<u64>) -> Result<u64, Fault>
    ensures ok { IfOk result (IsMoment at) }
    ensures refused { IfErr result (λ fault. (at ≡ None) × (fault ≡ Device ReadFailed)) }
{
    if picture {
        moment_of(clock, at)
    } else {
        Ok(at.unwrap_or(0))
    }
}

/// What `show` writes of the controller in a file. Refuses as `run_file` says of `show`.
pub(crate) fn show_output<R: Locks + Clock>(
    rt: &R,
    alloc: Global,
    file: &str,
    picture: bool,
    at: Option<u64>,
) -> Result<OutputWithNotes, Fault>
    ensures ok { IfOk result (λ noted. (now : ℕ) × IsMoment at now
        × Shows picture now calls.is_honest calls.file_bytes calls.place
        (calls.keep_in_file file.now)
        noted.output.text.items noted.output.refused noted.notes.items) }
    ensures refused { IfErr result (calls.IsNotSeen file.now at) }
{
    file_shown(
        rt,
        alloc,
        file,
        picture,
        moment_of_picture(rt, picture, at)?,
    )
}
