mod commands;
mod counts;
mod cut_keep;
mod exchanges;
mod failing_keep;
mod failing_streams;
mod fakes;
mod file_keep;
mod lent;
mod memory_disk;
mod memory_keep;
mod steps;
mod texts;

use keepers::Keep;

/// Whether a keeper is found to hold this.
fn loads<K: Keep>(keep: &mut K, expected: &[u8]) -> bool {
    match keep.load() {
        Ok(bytes) => bytes.as_slice() == expected,
        Err(_) => false,
    }
}
