//! A keeper in memory holds what was saved last.

use super::loads;
use keepers::{Keep, MemoryKeep};
use std::test::Fail;

#[test]
fn holds_what_was_saved(rt: HostRuntime) -> Result<(), Fail> {
    let mut keep = MemoryKeep::new(Vec::from_slice(rt.alloc(), b"first")?);
    assert!(rt; loads(&mut keep, b"first"));
    for value in [b"one", b"two"] {
        keep.save(value)?;
        assert!(rt; loads(&mut keep, value));
        assert!(rt; loads(&mut keep, value));
    }
    assert_eq!(rt; keep.failures(), 0);
    Ok(())
}
