//! Files as they are.

use keepers::{FileKeep, Locks, SystemDisk};
use std::alloc::Global;
use std::fs;
use std::io::Read;
use std::rt::Files;
use streams::Refused;

/// The keeper in a file, which has its lock.
pub fn locked<'a, R: Locks>(
    rt: &'a R,
    alloc: Global,
    file: &'a str,
) -> Result<FileKeep<SystemDisk<'a, R>>, Refused> {
    match FileKeep::lock(rt, alloc, file) {
        Ok(keep) => Ok(keep),
        Err(_) => Err(Refused::LoadFailed),
    }
}

/// `file FILE`: puts what is read into a file.
pub fn put<R: Files>(rt: &R, alloc: Global, file: &str, bytes: &[u8]) -> Result<Vec<u8>, Refused> {
    match fs::write(rt, file, bytes) {
        Ok(()) => Ok(Vec::new(alloc)),
        Err(_) => Err(Refused::SaveFailed),
    }
}

/// `folder PATH`: makes a folder.
pub fn folder<R: Files>(rt: &R, alloc: Global, path: &str) -> Result<Vec<u8>, Refused> {
    match fs::create_dir(rt, path) {
        Ok(()) => Ok(Vec::new(alloc)),
        Err(_) => Err(Refused::SaveFailed),
    }
}

/// `text FILE`: what a file has, on a line.
pub fn text<R: Files>(rt: &R, alloc: Global, file: &str) -> Result<Vec<u8>, Refused> {
    let mut bytes = Vec::new(alloc);
    let Ok(mut opened) = fs::open(rt, file) else {
        return Err(Refused::LoadFailed);
    };
    if opened.read_to_end(&mut bytes).is_err() {
        return Err(Refused::LoadFailed);
    }
    bytes.extend_from_slice(b"\n")?;
    Ok(bytes)
}
