//! Files opened and locked.

ghost use Rattle.std.specs.Prelude.{◌≡◌, true, IfOk, IfSome};

use crate::locks::Locks;
use std::fs::{self, Metadata, OpenFile, OpenOptions};
use std::io::{self, ErrorKind};
use std::os::unix::fs::MetadataExt;
use std::rt::Files;

/// How often a file is locked at most that others put another in the place of meanwhile.
pub(crate) const MAX_TRIES: u32 = 1_000_000;

/// Takes the lock of a file: waits for that, or only tries. Answers whether it took it.
fn take_lock<R: Locks>(rt: &R, file: &R::File, waits: bool) -> io::Result<bool>
    ensures { IfOk result (λ took. took ≡ true → R.was_locked file.now) }
{
    if !waits {
        return rt.try_lock(file);
    }
    rt.lock(file)?;
    Ok(true)
}

/// The file of this path, opened and locked: once nobody else has its lock, or, where it doesn't
/// wait, none if somebody has. Refuses a path that leads to no file, as one of a link or of a
/// folder. It leaves nothing behind.
pub(crate) fn lock_file<R: Locks>(rt: &R, path: &str, waits: bool) -> io::Result<Option<R::File>>
    ensures { IfOk result (λ found. IfSome found R.was_locked) }
{
    for _ in 0..MAX_TRIES {
        let file = open_file(rt, path)?;
        if !take_lock(rt, &file, waits)? {
            return Ok(None);
        }
        if leads_to(rt, path, &file)? {
            return Ok(Some(file));
        }
    }
    Err(ErrorKind::ResourceBusy.into())
}

/// The file of this path, for reads and writes, and where it may not be written for reads alone. A
/// lock that nobody shares wants a file that may be written where it is on another machine.
fn open_file<R: Files>(rt: &R, path: &str) -> io::Result<R::File> {
    if !fs::symlink_metadata(rt, path)?.is_file() {
        return Err(ErrorKind::InvalidInput.into());
    }
    match OpenOptions::new().read(true).write(true).open(rt, path) {
        Ok(file) => Ok(file),
        Err(_) => fs::open(rt, path),
    }
}

/// Locks a file. Answers whether the path leads to it then, since another may have removed it or
/// put another in its place before it was locked. Where it doesn't wait, it refuses a file that
/// somebody else has locked.
pub(crate) fn lock_named<R: Locks>(
    rt: &R,
    path: &str,
    file: &R::File,
    waits: bool,
) -> io::Result<bool>
    ensures { IfOk result (λ is_named. is_named ≡ true → R.was_locked file.now) }
{
    if !take_lock(rt, file, waits)? {
        return Err(ErrorKind::ResourceBusy.into());
    }
    leads_to(rt, path, file)
}

/// Whether the path leads to this file, and through no link.
fn leads_to<R: Files>(rt: &R, path: &str, file: &R::File) -> io::Result<bool> {
    match fs::symlink_metadata(rt, path) {
        Ok(there) => Ok(is_same_file(&there, &file.metadata()?)),
        Err(error) if error.kind() == ErrorKind::NotFound => Ok(false),
        Err(error) => Err(error),
    }
}

/// Whether both were read of one file.
pub(crate) fn is_same_file(one: &Metadata, other: &Metadata) -> bool {
    one.dev() == other.dev() && one.ino() == other.ino()
}
