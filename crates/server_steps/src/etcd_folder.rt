//! What lies under a path: in a folder of files, or in one of etcd.

ghost use Rattle.std.specs.Prelude.{◌≡◌, [], false, true, None, IfOk, IfSome};
ghost use Rattle.etcd_place.specs.NamedFolder.{named_folder};
ghost use Rattle.etcd_place.specs.Place.{etcd_place_in, is_etcd as is_etcd_text};
ghost use Rattle.keepers.specs.SystemFile.{file_bytes, is_honest, keep_in_new_file, place};
ghost use Rattle.server_steps.specs.Begun.{Begins};
ghost use Rattle.server_steps.specs.Listed.{AddsAllListed, AddsListed, AreListedIn};

use crate::engine::Engine;
use crate::mark::Mark;
use crate::route::named_in;
use crate::stepping::{begin_in_file, begin_kept, is_missing};
use crate::watched::MarkedFile;
use cells::{Cell, CellKeep};
use etcd_cell::SocketConnector;
use etcd_place::{EtcdFolder, EtcdPlace, is_etcd};
use etcd_wire::KeyVersion;
use keepers::Locks;
use shop_folder::Lies;
use std::alloc::{AllocError, Global};
use std::net::Net;
use std::rt::Files;
use std::time::{Clock, Instant};
use ticket_items::Id;

/// Whether a cell holds something, if it tells that. The cell is let go.
fn holds<C: Cell>(cell: C) -> Option<bool> {
    let mut cell = cell;
    match cell.read() {
        Ok(version) => Some(!version.bytes().is_empty()),
        Err(_) => None,
    }
}

/// Whether something is held under the key that a path names, if the engine tells it. What a touch
/// left is nothing.
fn is_held<R: Net + Clock>(
    rt: &R,
    alloc: Global,
    path: &str,
    engine: &mut Engine,
) -> Result<Option<bool>, AllocError> {
    let Some(place) = EtcdPlace::of(path) else {
        return Ok(Some(false));
    };
    if engine.is_left(rt) {
        return Ok(None);
    }
    let cell = place.cell(rt, alloc, Engine::limit())?;
    let asked = Instant::now(rt).ok();
    let held = holds(cell);
    engine.note(rt, asked, held.is_none());
    Ok(held)
}

/// The keys in a folder of etcd and below it, if the engine tells them.
fn keys_below<R: Net + Clock>(
    rt: &R,
    alloc: Global,
    folder: &EtcdFolder<'_>,
    engine: &mut Engine,
) -> Option<Vec<KeyVersion>> {
    if engine.is_left(rt) {
        return None;
    }
    let asked = Instant::now(rt).ok();
    let connector = SocketConnector::new(rt, Engine::limit());
    let keys = folder.keys(alloc, &connector);
    engine.note(rt, asked, keys.is_err());
    keys.ok()
}

/// Whether the engine answers what is in the folder that a path names.
pub fn lists<R: Net + Clock>(rt: &R, alloc: Global, path: &str, engine: &mut Engine) -> bool {
    match EtcdFolder::of(path) {
        Some(folder) => keys_below(rt, alloc, &folder, engine).is_some(),
        None => false,
    }
}

/// Whether something lies below the folder that a path names. Where the engine doesn't tell, the
/// path is as good as a file's: no step is made there, and who waits for one is told to come again.
fn lies_below<R: Net + Clock>(rt: &R, alloc: Global, path: &str, engine: &mut Engine) -> Lies {
    let Some(folder) = EtcdFolder::of(path) else {
        return Lies::Nothing;
    };
    match keys_below(rt, alloc, &folder, engine) {
        Some(keys) => {
            if keys.is_empty() {
                Lies::Nothing
            } else {
                Lies::Folder
            }
        }
        None => Lies::File,
    }
}

/// What lies under a path: of files, or in etcd.
pub(crate) fn lies_at<R: Files + Net + Clock>(
    rt: &R,
    alloc: Global,
    path: &str,
    engine: &mut Engine,
) -> Result<Lies, AllocError> {
    if !is_etcd(path) {
        return Ok(Lies::at(rt, path));
    }
    match is_held(rt, alloc, path, engine)? {
        Some(false) => Ok(lies_below(rt, alloc, path, engine)),
        Some(true) | None => Ok(Lies::File),
    }
}

/// Whether nothing is there under a path: where the system says so of files, and where etcd does.
pub fn is_missing_at<R: Files + Net + Clock>(
    rt: &R,
    alloc: Global,
    path: &str,
    engine: Engine,
) -> bool {
    if !is_etcd(path) {
        return is_missing(rt, path);
    }
    let mut engine = engine;
    matches!(is_held(rt, alloc, path, &mut engine), Ok(Some(false)))
}

/// Begins a worker of this name for this master under a path where nothing is yet. Answers whether
/// it may be there: in etcd another may have begun it, or the answer be lost.
pub fn begin_at<R: Locks + Net + Clock>(
    rt: &R,
    alloc: Global,
    path: &str,
    name: &Id,
    master: &Id,
) -> bool
    // Proved: A worker that is told to have begun in a file is of the name and for the master that
    // were given, and these differ: its state is held by the keeper over the new file of this path,
    // if that is honest. At a path that is to be a place in etcd and is none, no worker begins.
    // By `file`, `etcd`; `begin_kept`.
    ensures file { is_etcd_text path.now ≡ false → result ≡ true
        → Begins is_honest file_bytes place (keep_in_new_file path.now) name.now master.now }
    ensures etcd { is_etcd_text path.now ≡ true → etcd_place_in path.now ≡ None → result ≡ false }
{
    if !is_etcd(path) {
        return begin_in_file(rt, alloc, path, name, master);
    }
    let Some(place) = EtcdPlace::of(path) else {
        return false;
    };
    let Ok(cell) = place.cell(rt, alloc, Engine::limit()) else {
        return false;
    };
    let _ = begin_kept(alloc, CellKeep::over_new(alloc, cell), name, master);
    true
}

/// Puts the controller of a key behind others of a folder, if that is one.
fn push_key(
    alloc: Global,
    path: &str,
    folder: &EtcdFolder<'_>,
    key: &KeyVersion,
    found: &mut Vec<MarkedFile>,
) -> Result<(), AllocError>
    ensures { IfOk result (λ _. AddsListed path.now (named_folder folder.now).name key.now
        found.old.items found.new.items) }
{
    let Some(rest) = folder.rest_of(key.key()) else {
        return Ok(());
    };
    if let Some(route) = named_in(alloc, path, rest)? {
        let mark = Some(Mark::Revision(key.revision()));
        found.push(MarkedFile { route, mark })?;
    }
    Ok(())
}

/// The controllers of these keys of a folder that a path names, each with its revision.
fn controllers_of(
    alloc: Global,
    path: &str,
    folder: &EtcdFolder<'_>,
    keys: &[KeyVersion],
) -> Result<Vec<MarkedFile>, AllocError>
    ensures { IfOk result (λ files. AddsAllListed path.now (named_folder folder.now).name keys.now
        [] files.items) }
{
    let mut found = Vec::with_capacity(alloc, keys.len())?;
    for key in keys {
        push_key(alloc, path, folder, key, &mut found)?;
    }
    Ok(found)
}

/// The newest revision of values, or 0 of none.
fn newest_of(keys: &[KeyVersion]) -> u64 {
    let mut newest = 0;
    for key in keys {
        if key.revision() > newest {
            newest = key.revision();
        }
    }
    newest
}

/// Has the engine forget what was under its keys before the newest revisions, if it is time for
/// that. Nobody makes sure that it did: behind as many more it is asked again.
fn forget_past<R: Net + Clock>(
    rt: &R,
    alloc: Global,
    folder: &EtcdFolder<'_>,
    keys: &[KeyVersion],
    engine: &mut Engine,
) {
    let Some(revision) = engine.revision_to_forget(newest_of(keys)) else {
        return;
    };
    let asked = Instant::now(rt).ok();
    let connector = SocketConnector::new(rt, Engine::limit());
    let taken = folder.compact(alloc, &connector, revision);
    engine.note(rt, asked, taken.is_err());
}

/// The controllers in the folder of etcd that a path names, each with its revision, if the engine
/// tells them.
pub fn controllers_in<R: Net + Clock>(
    rt: &R,
    alloc: Global,
    path: &str,
    engine: &mut Engine,
) -> Result<Option<Vec<MarkedFile>>, AllocError>
    // Proved: Of the keys of a folder in etcd just those are listed whose names lead to a
    // controller, in turn, each with the revision of its value.
    // By `controllers_of`, `push_key`.
    ensures { IfOk result (λ found. IfSome found (λ files. AreListedIn path.now files.items)) }
{
    let Some(folder) = EtcdFolder::of(path) else {
        return Ok(None);
    };
    let Some(keys) = keys_below(rt, alloc, &folder, engine) else {
        return Ok(None);
    };
    forget_past(rt, alloc, &folder, keys.as_slice(), engine);
    Ok(Some(controllers_of(alloc, path, &folder, keys.as_slice())?))
}
