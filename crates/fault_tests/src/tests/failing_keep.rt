//! Of a failing keeper just the call that is to fail fails, and a save then leaves what it is to.

use super::loads;
use keepers::{FailingKeep, Keep, KeepFault};
use std::alloc::{AllocError, Global};
use std::test::Fail;

/// Whether the calls load, save, save, load of a keeper that holds `old`, which saves `one` and
/// then `two`, fail at the k-th and nowhere else, and whether `last` is loaded in the end, unless
/// that fails.
fn fails_at(alloc: Global, k: u64, leaves_new: bool, last: &[u8]) -> Result<bool, AllocError> {
    let mut keep = FailingKeep::new(Vec::from_slice(alloc, b"old")?, k, leaves_new);
    let first = loads(&mut keep, b"old") != (k == 1);
    let one = keep.save(b"one").err() == fault(k == 2);
    let two = keep.save(b"two").err() == fault(k == 3);
    let failures = keep.failures() == u64::from(1 <= k && k <= 3);
    let end = loads(&mut keep, last) != (k == 4);
    Ok(first && one && two && failures && end)
}

fn fault(fails: bool) -> Option<KeepFault> {
    fails.then_some(KeepFault::Failed)
}

#[test]
fn fails_once(rt: HostRuntime) -> Result<(), Fail> {
    for (k, leaves_new, last) in [
        (0, false, b"two"),
        (1, false, b"two"),
        (1, true, b"two"),
        (2, false, b"two"),
        (2, true, b"two"),
        (3, false, b"one"),
        (3, true, b"two"),
        (4, false, b"two"),
    ] {
        assert!(rt;
            fails_at(rt.alloc(), k, leaves_new, last)?,
            "{k} {leaves_new}"
        );
    }
    Ok(())
}
