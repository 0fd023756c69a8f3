//! What `list` writes of the controller in a file, and of those in the files of a folder.

ghost use Rattle.std.specs.Prelude.{◌≡◌, ◌⊎◌, ℕ, All, IfErr, IfOk, List};
ghost use Rattle.file_commands.specs.Calls as calls;
ghost use Rattle.file_commands.specs.Calls.{IsNotListed};
ghost use Rattle.file_commands.specs.Commands.{IsMoment};
ghost use Rattle.file_commands.specs.Listing as listing;
ghost use Rattle.shop_folder.specs.Files.{LiesIn};
ghost use Rattle.shop_folder.specs.declared.folder_file.FolderFile.{FolderFile as FolderFileSeen};
ghost use Rattle.file_commands.specs.Opening.{IsNotLoaded};
ghost use Rattle.streams.specs.declared.refused.Refused.TheVariants.{Core};
ghost use Rattle.streams.specs.declared.fault.Fault.TheVariants.{Input};
ghost use Rattle.ticket_items.specs.declared.refusal.Refusal.TheVariants.{Memory};

use crate::asked::ListRequest;
use crate::listed::FileLists;
use crate::lists::Lists;
use crate::moment::moment_of;
use crate::noted::OutputWithNotes;
use crate::opening::{locked_keep, snapshot_in};
use crate::step::output_unrefused;
use keepers::{Keep, Locks};
use shop_folder::{FolderFile, Place, files_in};
use std::alloc::{Alloc, Global};
use std::time::Clock;
use streams::{Fault, Output, Refused};

/// What `list` writes of the controller that a keeper holds.
pub fn kept_list<K: Keep>(
    alloc: Global,
    keep: K,
    asked: ListRequest,
) -> Result<OutputWithNotes, Fault>
    ensures ok { IfOk result (λ noted. listing.ListsOne asked K.is_honest K.held keep
        noted.output.text.items noted.output.refused noted.notes.items) }
    ensures refused { IfErr result (λ fault. IsNotLoaded K.is_honest K.held K.load_fails keep fault
        ⊎ (fault ≡ Input (Core Memory))) }
{
    let snapshot = snapshot_in(alloc, keep)?;
    let mut lists = Lists::new(alloc);
    lists.push(alloc, snapshot.controller(), asked)?;
    let output = output_unrefused(lists.text(alloc, asked.is_json)?);
    Ok(OutputWithNotes::without_notes(alloc, output))
}

/// The same of the controller in a file.
fn file_list<R: Locks>(
    rt: &R,
    alloc: Global,
    file: &str,
    asked: ListRequest,
) -> Result<OutputWithNotes, Fault>
    ensures ok { IfOk result (λ noted. listing.ListsOne asked calls.is_honest calls.file_bytes
        (calls.keep_in_file file.now) noted.output.text.items noted.output.refused
        noted.notes.items) }
    ensures refused { IfErr result (IsNotListed file.now) }
{
    match locked_keep(rt, alloc, file) {
        Ok(keep) => kept_list(alloc, keep, asked),
        Err(fault) => Err(fault),
    }
}

/// What `list` writes of the controllers in the files of a folder, one after the other.
fn files_list<R: Locks>(
    rt: &R,
    alloc: Global,
    files: &[FolderFile],
    asked: ListRequest,
) -> Result<OutputWithNotes, Fault>
    ensures ok { IfOk result (λ noted. listing.ListsFiles asked files.now
        noted.output.text.items noted.output.refused noted.notes.items) }
    ensures refused { IfErr result (λ fault. fault ≡ Input (Core Memory)) }
{
    let mut listed = FileLists::new(alloc);
    for file in files {
        listed.push(rt, alloc, file, asked)?;
    }
    let output = Output {
        text: listed.lists.text(alloc, asked.is_json)?,
        refused: listed.refused,
    };
    Ok(OutputWithNotes {
        output,
        notes: listed.notes,
    })
}

/// The same of a folder. Refuses `LoadFailed` where that isn't read.
fn folder_list<R: Locks + Alloc + Clone + Drop>(
    rt: &R,
    alloc: Global,
    folder: &str,
    asked: ListRequest,
) -> Result<OutputWithNotes, Fault>
    ensures ok { IfOk result (λ noted. (files : List FolderFileSeen) × All (LiesIn folder.now) files
        × listing.ListsFiles asked files noted.output.text.items noted.output.refused
        noted.notes.items) }
    ensures refused { IfErr result (IsNotListed folder.now) }
{
    match files_in(rt, alloc, folder) {
        Ok(files) => files_list(rt, alloc, files.as_slice(), asked),
        Err(_) => Err(Fault::Device(Refused::LoadFailed)),
    }
}

/// The same of a path: of the file there, or of the folder.
fn list_at<R: Locks + Alloc + Clone + Drop>(
    rt: &R,
    alloc: Global,
    path: &str,
    asked: ListRequest,
) -> Result<OutputWithNotes, Fault>
    ensures ok { IfOk result (λ noted. listing.ListsAt asked path.now noted.output.text.items
        noted.output.refused noted.notes.items) }
    ensures refused { IfErr result (IsNotListed path.now) }
{
    match Place::at(rt, path) {
        Place::File(file) => file_list(rt, alloc, file, asked),
        Place::Folder(folder) => folder_list(rt, alloc, folder, asked),
    }
}

/// What `list` writes of a path. Refuses as `run_file` says of `list`.
pub(crate) fn list_output<R: Locks + Clock + Alloc + Clone + Drop>(
    rt: &R,
    alloc: Global,
    path: &str,
    is_open: bool,
    is_json: bool,
    at: Option<u64>,
) -> Result<OutputWithNotes, Fault>
    ensures ok { IfOk result (λ noted. (now : ℕ) × IsMoment at now
        × listing.ListsAt (record { is_open = is_open; is_json = is_json; now = now }) path.now
        noted.output.text.items noted.output.refused noted.notes.items) }
    ensures refused { IfErr result (calls.IsNotSeen path.now at) }
{
    let now = moment_of(rt, at)?;
    list_at(
        rt,
        alloc,
        path,
        ListRequest {
            is_open,
            is_json,
            now,
        },
    )
}
