//! What `Counted` counts is what its reader or writer was called for and answered.

use super::fakes::{Sink, Source};
use std::alloc::Global;
use std::io::{ErrorKind, Read, Write};
use streams::Counted;

/// What a read answers, and the calls, the failures and the interruptions that are counted then.
fn read_and_counts(
    reader: &mut Counted<Source<'_>>,
    buffer: &mut [u8],
) -> (Option<usize>, u64, u64, u64) {
    let answer = reader.read(buffer).ok();
    (
        answer,
        reader.calls(),
        reader.failures(),
        reader.interruptions(),
    )
}

#[test]
fn counts_reads(rt: HostRuntime) {
    let mut source = Source::new(b"ab");
    source.interruptions = 2;
    source.fails = true;
    let mut reader = Counted::new(source);
    assert_eq!(rt; read_and_counts(&mut reader, &mut []), (Some(0), 0, 0, 0));
    for row in [
        (None, 1, 0, 1),
        (None, 2, 0, 2),
        (Some(1), 3, 0, 2),
        (Some(1), 4, 0, 2),
        (None, 5, 1, 2),
        (None, 6, 2, 2),
    ] {
        assert_eq!(rt; read_and_counts(&mut reader, &mut [0u8; 4]), row);
    }
    assert_eq!(rt; reader.into_inner().calls, 6);
}

/// How many bytes a write takes, and the calls and the failures that are counted then.
fn write_and_counts(writer: &mut Counted<Sink>, bytes: &[u8]) -> (usize, u64, u64) {
    let taken = writer.write(bytes).ok().unwrap_or(0);
    (taken, writer.calls(), writer.failures())
}

/// Whether the calls of a writer that has room for a byte, and then fails so, are counted.
fn counts_until(alloc: Global, end: Option<ErrorKind>) -> bool {
    let mut writer = Counted::new(Sink::new(alloc, 1, end));
    let empty = writer.write(b"").ok() == Some(0) && writer.flush().is_ok();
    let none = write_and_counts(&mut writer, b"") == (0, 0, 0);
    let one = write_and_counts(&mut writer, b"ab") == (1, 1, 0);
    let full = write_and_counts(&mut writer, b"b") == (0, 2, 1);
    let interruptions = writer.interruptions();
    let calls = writer.into_inner().calls;
    empty && none && one && full && interruptions == 0 && calls == 2
}

#[test]
fn counts_writes(rt: HostRuntime) {
    for end in [Some(ErrorKind::Other), Some(ErrorKind::Interrupted), None] {
        assert!(rt; counts_until(rt.alloc(), end));
    }
}
