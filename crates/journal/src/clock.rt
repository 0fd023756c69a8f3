use std::time::{Clock, SystemTime};

/// The time, in whole seconds since 1970, where the clock tells one.
pub fn seconds<R: Clock>(clock: &R) -> Option<u64> {
    let now = SystemTime::now(clock).ok()?;
    let since = now.duration_since(SystemTime::UNIX_EPOCH).ok()?;
    Some(since.as_secs())
}
