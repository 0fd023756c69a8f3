//! A keeper in a file, in the folder where the tests run.

use super::loads;
use keepers::{FileKeep, Keep, KeepFault, SystemDisk};
use std::fs::{self, Permissions};
use std::io;
use std::os::unix::fs::{PermissionsExt, symlink};
use std::test::Fail;

/// Whether nothing is there under a path.
fn is_missing(rt: &HostRuntime, path: &str) -> bool {
    fs::symlink_metadata(rt, path).is_err()
}

/// A keeper in the file of a path, of which it has the lock.
fn locked<'a>(
    rt: &'a HostRuntime,
    path: &'a str,
) -> Result<FileKeep<SystemDisk<'a, HostRuntime>>, KeepFault> {
    FileKeep::lock(rt, rt.alloc(), path)
}

/// Whether what is under the path is refused a lock, and a first save over it fails.
fn fails_over(rt: &HostRuntime, path: &str) -> bool {
    let failed_to_create = FileKeep::create_new(rt, rt.alloc(), path).save(b"two")
        == Err(KeepFault::Failed);
    failed_to_create && locked(rt, path).is_err()
}

/// A file that holds these bytes, as a keeper makes it.
fn make(rt: &HostRuntime, path: &str, bytes: &[u8]) -> Result<(), KeepFault> {
    let _ = fs::remove_file(rt, path);
    FileKeep::create_new(rt, rt.alloc(), path).save(bytes)
}

/// Whether the file of a path holds these bytes.
fn holds(rt: &HostRuntime, path: &str, bytes: &[u8]) -> bool {
    match locked(rt, path) {
        Ok(mut keep) => loads(&mut keep, bytes),
        Err(_) => false,
    }
}

/// Whether bytes are saved over the file of a path.
fn saves(rt: &HostRuntime, path: &str, bytes: &[u8]) -> bool {
    match locked(rt, path) {
        Ok(mut keep) => keep.save(bytes).is_ok(),
        Err(_) => false,
    }
}

/// Whether another has the lock of the file of a path.
fn is_held(rt: &HostRuntime, path: &str) -> bool {
    match FileKeep::try_lock(rt, rt.alloc(), path) {
        Ok(keep) => keep.is_none(),
        Err(_) => false,
    }
}

/// Whether a keeper holds each value that it saves, and has the lock of the file then, whichever
/// file that is by now.
fn holds_each<K: Keep>(rt: &HostRuntime, keep: &mut K, path: &str) -> bool {
    for value in [b"one", b"two", b"six"] {
        if keep.save(value).is_err() || !loads(keep, value) || !is_held(rt, path) {
            return false;
        }
    }
    keep.failures() == 0
}

/// Whether a new keeper makes its file, and holds each value that it saves.
fn makes_and_holds(rt: &HostRuntime, path: &str) -> bool {
    let mut keep = FileKeep::create_new(rt, rt.alloc(), path);
    let is_new = !keep.exists();
    is_new && holds_each(rt, &mut keep, path) && keep.exists()
}

#[test]
fn holds_what_was_saved(rt: HostRuntime) -> Result<(), Fail> {
    // What a run that was cut off may have left.
    let _ = fs::remove_file(&rt, "state");
    assert!(rt; makes_and_holds(&rt, "state"));
    assert!(rt; !is_held(&rt, "state") && holds(&rt, "state", b"six"));
    assert!(rt; is_missing(&rt, "state.new"));
    fs::remove_file(&rt, "state")?;
    Ok(())
}

/// Whether a load and then a save of a keeper fail, and are counted.
fn fails_twice<K: Keep>(keep: &mut K) -> bool {
    let is_unread = keep.load().err() == Some(KeepFault::Failed) && keep.failures() == 1;
    let is_unsaved = keep.save(b"one") == Err(KeepFault::Failed) && keep.failures() == 2;
    is_unread && is_unsaved
}

/// Whether nothing is loaded or saved once the file that was locked is gone.
fn fails_once_gone(rt: &HostRuntime, path: &str) -> bool {
    match locked(rt, path) {
        Ok(mut keep) => {
            fs::remove_file(rt, path).is_ok() && fails_twice(&mut keep) && !keep.exists()
        }
        Err(_) => false,
    }
}

#[test]
fn fails_without_a_file(rt: HostRuntime) -> Result<(), Fail> {
    make(&rt, "missing", b"one")?;
    assert!(rt; fails_once_gone(&rt, "missing") && is_missing(&rt, "missing.new"));
    assert!(rt; locked(&rt, "missing").is_err());
    assert!(rt; fails_over(&rt, "missing/state"));
    Ok(())
}

/// Whether a save fails where a link has taken the place of the file that was locked.
fn fails_once_linked(rt: &HostRuntime, path: &str, target: &str) -> bool {
    match locked(rt, path) {
        Ok(mut keep) => {
            fs::remove_file(rt, path).is_ok()
                && symlink(rt, target, path).is_ok()
                && keep.save(b"two") == Err(KeepFault::Failed)
        }
        Err(_) => false,
    }
}

#[test]
fn fails_over_a_link(rt: HostRuntime) -> Result<(), Fail> {
    make(&rt, "linked", b"one")?;
    let _ = fs::remove_file(&rt, "link");
    symlink(&rt, "linked", "link")?;
    assert!(rt; fails_over(&rt, "link"));
    assert!(rt; fails_once_linked(&rt, "linked", "link") && is_missing(&rt, "linked.new"));
    // The one leads to the other now, and neither to a file.
    assert!(rt; fails_over(&rt, "link"));
    fs::remove_file(&rt, "linked")?;
    fs::remove_file(&rt, "link")?;
    Ok(())
}

#[test]
fn fails_over_a_folder(rt: HostRuntime) -> Result<(), Fail> {
    fs::create_dir(&rt, "folder")?;
    assert!(rt; fails_over(&rt, "folder") && is_missing(&rt, "folder.new"));
    fs::remove_dir(&rt, "folder")?;
    Ok(())
}

/// Whether a save fails, and the file of a path holds on what it held.
fn fails_and_holds(rt: &HostRuntime, path: &str, bytes: &[u8]) -> bool {
    match locked(rt, path) {
        Ok(mut keep) => keep.save(b"two") == Err(KeepFault::Failed) && loads(&mut keep, bytes),
        Err(_) => false,
    }
}

#[test]
fn fails_over_what_may_not_be_written(rt: HostRuntime) -> Result<(), Fail> {
    make(&rt, "fixed", b"one")?;
    fs::set_permissions(&rt, "fixed", Permissions::from_mode(0o444))?;
    assert!(rt; fails_and_holds(&rt, "fixed", b"one") && is_missing(&rt, "fixed.new"));
    fs::remove_file(&rt, "fixed")?;
    Ok(())
}

#[test]
fn keeps_the_permissions(rt: HostRuntime) -> Result<(), Fail> {
    make(&rt, "secret", b"one")?;
    fs::set_permissions(&rt, "secret", Permissions::from_mode(0o640))?;
    assert!(rt; saves(&rt, "secret", b"two") && holds(&rt, "secret", b"two"));
    let mode = fs::metadata(&rt, "secret")?.permissions().mode();
    assert_eq!(rt; mode & 0o777, 0o640);
    fs::remove_file(&rt, "secret")?;
    Ok(())
}

/// Leaves something under the name that a save writes to.
fn leave(rt: &HostRuntime, kind: u8) -> io::Result<()> {
    match kind {
        0 => fs::write(rt, "left.new", b"front"),
        1 => symlink(rt, "nowhere", "left.new"),
        _ => fs::hard_link(rt, "left", "left.new"),
    }
}

#[test]
fn removes_what_was_left(rt: HostRuntime) -> Result<(), Fail> {
    for kind in [0, 1, 2] {
        make(&rt, "left", b"one")?;
        leave(&rt, kind)?;
        assert!(rt; saves(&rt, "left", b"two") && holds(&rt, "left", b"two"));
        assert!(rt; is_missing(&rt, "left.new"));
        fs::remove_file(&rt, "left")?;
    }
    fs::write(&rt, "left.new", b"front")?;
    make(&rt, "left", b"one")?;
    assert!(rt; holds(&rt, "left", b"one") && is_missing(&rt, "left.new"));
    fs::remove_file(&rt, "left")?;
    Ok(())
}
