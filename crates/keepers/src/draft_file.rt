//! The file that a save writes, beside the one whose name it is to have.

use crate::file_lock::{MAX_TRIES, is_same_file, lock_file, lock_named};
use crate::locks::Locks;
use std::fs::{self, Metadata, OpenFile, OpenOptions, Permissions};
use std::io::{self, ErrorKind};
use std::os::unix::fs::OpenOptionsExt;
use std::path::Path;
use std::rt::Files;

/// The permissions of the file of this path. Refuses what is no file, and one that may not be
/// written.
pub(crate) fn permissions_of<R: Files>(rt: &R, path: &str) -> io::Result<Permissions> {
    let there = fs::symlink_metadata(rt, path)?;
    let permissions = there.permissions();
    if !there.is_file() || permissions.readonly() {
        return Err(ErrorKind::PermissionDenied.into());
    }
    OpenOptions::new().write(true).open(rt, path)?;
    Ok(permissions)
}

/// The folder of the file of this path.
pub(crate) fn open_folder<R: Files>(rt: &R, path: &str) -> io::Result<R::File> {
    match Path::new(path).parent() {
        Some(folder) if !folder.as_str().is_empty() => fs::open(rt, folder),
        _ => fs::open(rt, "."),
    }
}

/// Makes the file of `new_path`, beside the one of `path`, and locks it; with these permissions, or
/// those of any new file. What others put under that path meanwhile is removed, once nobody has its
/// lock; where it doesn't wait for that, it refuses one that somebody has locked.
pub(crate) fn make_beside<R: Locks>(
    rt: &R,
    path: &str,
    new_path: &str,
    permissions: Option<Permissions>,
    waits: bool,
) -> io::Result<R::File> {
    for _ in 0..MAX_TRIES {
        match create_new(rt, new_path, permissions.is_some()) {
            Ok(file) => {
                if finish_made(rt, new_path, &file, permissions.clone()?, waits)? {
                    return Ok(file);
                }
            }
            Err(error) if error.kind() == ErrorKind::AlreadyExists => {
                remove_left(rt, path, new_path, waits)?;
            }
            Err(error) => return Err(error),
        }
    }
    Err(ErrorKind::ResourceBusy.into())
}

/// Makes a file under a path under which nothing is; a secret one where its permissions follow.
fn create_new<R: Files>(rt: &R, path: &str, is_secret: bool) -> io::Result<R::File> {
    let mode = if is_secret { 0o600 } else { 0o666 };
    OpenOptions::new()
        .write(true)
        .create_new(true)
        .mode(mode)
        .open(rt, path)
}

/// Locks a file that was made under this path, and gives it its permissions; where that fails, it
/// is removed. Answers whether the path leads to it then.
fn finish_made<R: Locks>(
    rt: &R,
    path: &str,
    file: &R::File,
    permissions: Option<Permissions>,
    waits: bool,
) -> io::Result<bool> {
    let answer = lock_made(rt, path, file, permissions, waits);
    if answer.is_err() {
        let _ = fs::remove_file(rt, path);
    }
    answer
}

/// Locks a file that was made under this path. If the path leads to it then, it gets its
/// permissions.
fn lock_made<R: Locks>(
    rt: &R,
    path: &str,
    file: &R::File,
    permissions: Option<Permissions>,
    waits: bool,
) -> io::Result<bool> {
    let is_named = lock_named(rt, path, file, waits)?;
    if let Some(permissions) = permissions
        && is_named
    {
        file.set_permissions(permissions)?;
    }
    Ok(is_named)
}

/// Removes what is under `new_path`, unless that is gone meanwhile.
pub(crate) fn remove_left<R: Locks>(
    rt: &R,
    path: &str,
    new_path: &str,
    waits: bool,
) -> io::Result<()> {
    match remove_unlocked(rt, path, new_path, waits) {
        Err(error) if error.kind() == ErrorKind::NotFound => Ok(()),
        answer => answer,
    }
}

/// Removes what is under `new_path`, once nobody has its lock. A second name of the file of `path`
/// is removed at once: whoever saves that may have its lock.
fn remove_unlocked<R: Locks>(rt: &R, path: &str, new_path: &str, waits: bool) -> io::Result<()> {
    let left = fs::symlink_metadata(rt, new_path)?;
    if left.is_file() && !is_file_of(rt, path, &left) {
        return match lock_file(rt, new_path, waits)? {
            Some(_file) => fs::remove_file(rt, new_path),
            None => Err(ErrorKind::ResourceBusy.into()),
        };
    }
    fs::remove_file(rt, new_path)
}

/// Whether these metadata are those of the file of this path.
fn is_file_of<R: Files>(rt: &R, path: &str, metadata: &Metadata) -> bool {
    match fs::symlink_metadata(rt, path) {
        Ok(there) => is_same_file(&there, metadata),
        Err(_) => false,
    }
}
