//! A save over a disk of which each call fails in turn, or at which the system stops.

use keepers::{KeepFault, MemoryDisk, load, save, save_first};
use std::alloc::{AllocError, Global};
use std::test::Fail;

/// Whether each of these files has the old bytes, or is as absent as the old one, or has the new.
fn are_whole(files: &[Option<Vec<u8>>], old: &Option<Vec<u8>>) -> bool {
    for file in files {
        if file != old && !has(file, b"new") {
            return false;
        }
    }
    true
}

/// Whether a file is there, of these bytes.
fn has(file: &Option<Vec<u8>>, bytes: &[u8]) -> bool {
    match file {
        Some(found) => found.as_slice() == bytes,
        None => false,
    }
}

/// Whether a disk that begins with what a crash left gives that, and can be saved to.
fn starts_again(alloc: Global, file: &Option<Vec<u8>>) -> Result<bool, AllocError> {
    let mut disk = MemoryDisk::new(alloc, file.clone()?, 0, false)?;
    let is_same = match load(&mut disk) {
        Ok(bytes) => has(file, bytes.as_slice()),
        Err(_) => file.is_none(),
    };
    let saved = match file {
        Some(_) => save(&mut disk, b"next"),
        None => save_first(&mut disk, b"next"),
    };
    let is_durable = disk.may_leave().iter().all(|file| has(file, b"next"));
    Ok(is_same && saved.is_ok() && is_durable)
}

/// Whether a save whose k-th call fails, or is the last before the system stops, leaves the old
/// file or the new, whole, whenever a crash comes; and the new alone where it is told as saved.
fn is_saved_whole(
    alloc: Global,
    old: &Option<Vec<u8>>,
    k: u64,
    stops: bool,
) -> Result<bool, AllocError> {
    let mut disk = MemoryDisk::new(alloc, old.clone()?, k, stops)?;
    let saved: Result<(), KeepFault> = match old {
        Some(_) => save(&mut disk, b"new"),
        None => save_first(&mut disk, b"new"),
    };
    for file in disk.might_have_left() {
        if !starts_again(alloc, file)? {
            return Ok(false);
        }
    }
    let is_durable = disk.may_leave().iter().all(|file| has(file, b"new"));
    // The last two calls are after the file has its name: a removal, whose answer isn't asked, and
    // the sync of the folder.
    let is_told = match k {
        0 | 8.. => saved.is_ok(),
        1..=5 => saved.is_err(),
        _ => true,
    };
    Ok(are_whole(disk.might_have_left(), old) && (saved.is_err() || is_durable) && is_told)
}

#[test]
fn a_save_leaves_the_old_file_or_the_new(rt: HostRuntime) -> Result<(), Fail> {
    let alloc = rt.alloc();
    for old in [None, Some(Vec::from_slice(alloc, b"old")?)] {
        for k in 0..9 {
            for stops in [false, true] {
                assert!(rt; is_saved_whole(alloc, &old, k, stops)?, "call {k}");
            }
        }
    }
    Ok(())
}
