//! Lines and columns.

use std::alloc::{AllocError, Global};

/// Where each line of a text begins, in bytes from the text's first.
#[derive(Drop)]
pub(crate) struct Lines {
    starts: Vec<usize>,
}

impl Lines {
    /// The lines of a text, each of which ends with a line feed.
    pub(crate) fn of(alloc: Global, text: &[u8]) -> Result<Lines, AllocError> {
        let mut starts = Vec::new(alloc);
        for (place, byte) in text.iter().enumerate() {
            if *byte == b'\n' {
                starts.push(place.saturating_add(1))?;
            }
        }
        Ok(Lines { starts })
    }

    /// The line and the column of a byte, both from 1 on, the column in bytes.
    pub(crate) fn place_of(&self, at: usize) -> (usize, usize) {
        let before = self.starts.partition_point(|start| *start <= at);
        let start = match before.checked_sub(1) {
            Some(last) => self.starts.get(last).copied().unwrap_or(0),
            None => 0,
        };
        (
            before.saturating_add(1),
            at.saturating_sub(start).saturating_add(1),
        )
    }
}
