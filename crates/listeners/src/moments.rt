use std::io;
use std::time::{Clock, Instant};

/// The moments of a server: milliseconds since it began, which never go back, and seconds since
/// 1970.
#[derive(Clone, Copy)]
pub struct Moments {
    start: Instant,
}

impl Moments {
    /// Those of a server that begins now.
    pub fn begin<R: Clock>(clock: &R) -> io::Result<Moments> {
        Ok(Moments {
            start: Instant::now(clock)?,
        })
    }

    /// How many milliseconds it runs; as many as last where the clock can't be read.
    pub fn now<R: Clock>(&self, clock: &R, last: u64) -> u64 {
        match self.start.elapsed(clock) {
            Ok(elapsed) => u64::try_from(elapsed.as_millis()).unwrap_or(last),
            Err(_) => last,
        }
    }
}
