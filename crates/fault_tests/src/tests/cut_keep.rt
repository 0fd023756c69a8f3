//! A keeper over disks of which a save is cut off. The sixth call of a save is the last: by then
//! the draft has the file's name, and the folder isn't synced.

use super::loads;
use keepers::{Cut, CutKeep, Keep};
use std::alloc::{AllocError, Global};
use std::test::Fail;

/// Whether a save that is cut off so comes through or doesn't, and leaves these bytes.
fn leaves(
    alloc: Global,
    call: u64,
    left: usize,
    comes_through: bool,
    bytes: &[u8],
) -> Result<bool, AllocError> {
    let mut cuts = Vec::new(alloc);
    cuts.push(Cut { call, left })?;
    let mut keep = CutKeep::new(Vec::from_slice(alloc, b"old")?, cuts);
    let saved = keep.save(b"new").is_ok();
    let failed = keep.failures() == 1;
    Ok(saved == comes_through && failed != comes_through && loads(&mut keep, bytes))
}

#[test]
fn leaves_the_old_or_the_new(rt: HostRuntime) -> Result<(), Fail> {
    let alloc = rt.alloc();
    assert!(rt; leaves(alloc, 0, 0, true, b"new")?);
    assert!(rt; leaves(alloc, 1, 0, false, b"old")?);
    assert!(rt; leaves(alloc, 5, 9, false, b"old")?);
    assert!(rt; leaves(alloc, 6, 0, false, b"old")?);
    assert!(rt; leaves(alloc, 6, 1, false, b"new")?);
    assert!(rt; leaves(alloc, 7, 1, true, b"new")?);
    Ok(())
}
