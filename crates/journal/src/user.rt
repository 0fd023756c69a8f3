//! Who runs the program.

use std::alloc::Global;
use std::fs;
use std::os::unix::fs::MetadataExt;
use std::rt::Files;

/// The folder that tells of the program, and belongs to who runs it.
const SELF: &str = "/proc/self";

/// Who runs the program, as `uid:` and a number, where the system tells it. A sender has no colon
/// in its name.
pub fn user_text<R: Files>(rt: &R, alloc: Global) -> Option<String> {
    let there = fs::metadata(rt, SELF).ok()?;
    let user = there.uid();
    format!(in alloc; "uid:{user}").ok()
}
