//! The controller that a file is for.

use crate::names::is_file_name;
use crate::routes::in_folder;
use std::alloc::{AllocError, Global};
use std::fs;
use std::io::ErrorKind;
use std::rt::Files;
use stored_state::Addressee;

/// The name of the file that makes a folder one of controllers under their own names. It has a dot,
/// so that no controller has it.
pub const PEERS: &str = "peers.json";

/// A path as that of a folder and a name in it.
fn folder_and_name(path: &str) -> (&str, &str) {
    match path.rsplit_once('/') {
        Some((folder, name)) => (folder, name),
        None => (".", path),
    }
}

/// A name that may be that of a file, or else the empty one, which no controller has.
fn servable(name: &str) -> &str {
    if is_file_name(name) {
        return name;
    }
    ""
}

/// The path of a folder's peers' file, if something has its name: a file, or a link to one. What
/// else lies there is given too, so that whoever reads it tells that it is none, and nobody takes
/// the folder for one without.
pub fn peers_of<R: Files>(
    rt: &R,
    alloc: Global,
    folder: &str,
) -> Result<Option<String>, AllocError> {
    let path = in_folder(alloc, folder, PEERS)?;
    match fs::symlink_metadata(rt, path.as_str()) {
        Err(error) if error.kind() == ErrorKind::NotFound => Ok(None),
        _ => Ok(Some(path)),
    }
}

/// Whether a folder has a peers' file, and so has controllers under their own names.
fn is_served<R: Files>(rt: &R, alloc: Global, folder: &str) -> Result<bool, AllocError> {
    let peers = peers_of(rt, alloc, folder)?;
    Ok(peers.is_some())
}

/// The controller that a file is for: in a folder with a peers' file the one of the file's name; in
/// a folder in such a folder the worker of that folder's name whose master has the file's name;
/// none at all where such a name may not be that of a file; and else any. The folder that a process
/// works in isn't looked at from within another.
pub fn owner_of<'a, R: Files>(
    rt: &R,
    alloc: Global,
    path: &'a str,
) -> Result<Addressee<'a>, AllocError> {
    let (folder, name) = folder_and_name(path);
    if is_served(rt, alloc, folder)? {
        return Ok(Addressee::Named(servable(name)));
    }
    let (above, worker) = folder_and_name(folder);
    if is_served(rt, alloc, above)? {
        return Ok(Addressee::WorkerOf(servable(worker), servable(name)));
    }
    Ok(Addressee::Any)
}
