//! Runs of `edit` over readers and writers that are slow, cut, interrupted or fail.

use super::fakes::{Sink, Source};
use document_commands::run_edit;
use std::alloc::Global;
use std::io::ErrorKind;
use streams::{Counted, MAX_INPUT_BYTES};

const INPUT: &str =
    r#"{"At":5,"Edits":[],"Ticket":{"ID":"n0","JobID":"J0","JobPartID":"p0","Status":"Waiting","Type":"Product"}}"#;

const OUTPUT: &str =
    r#"{"Attr":{},"AuditPool":[],"ID":"n0","JDF":[],"JobID":"J0","JobPartID":"p0","ResourceLinkPool":[],"ResourcePool":[],"Status":"Waiting","Type":"Product"}
"#;

/// What the streams do, and how the run ends: its status, how many bytes of the output are written,
/// and what is told.
#[derive(Clone, Copy)]
struct Case {
    input: &'static str,
    spaces: usize,
    step: usize,
    interruptions: u32,
    fails: bool,
    room: usize,
    end: Option<ErrorKind>,
    room_to_tell: usize,
    status: u8,
    written: usize,
    told: &'static str,
}

/// A run over slow streams.
const SLOW: Case = Case {
    input: INPUT,
    spaces: 0,
    step: 1,
    interruptions: 0,
    fails: false,
    room: 1_000,
    end: None,
    room_to_tell: 1_000,
    status: 0,
    written: OUTPUT.len(),
    told: "",
};

/// A run that reads as much as it may, a buffer at a time.
const LARGE: Case = Case {
    spaces: MAX_INPUT_BYTES - INPUT.len(),
    step: MAX_INPUT_BYTES,
    ..SLOW
};

const TOO_LARGE: Case = Case {
    spaces: MAX_INPUT_BYTES - INPUT.len() + 1,
    status: 3,
    written: 0,
    told: "Refused 53 TooLarge\n",
    ..LARGE
};

const FAILED_READ: Case = Case {
    status: 4,
    written: 0,
    told: "Refused 55 ReadFailed\n",
    ..SLOW
};

const FAILED_WRITE: Case = Case {
    room: 7,
    status: 4,
    written: 7,
    told: "Refused 56 WriteFailed\n",
    ..SLOW
};

const REFUSED: Case = Case {
    input: "{}",
    status: 3,
    written: 0,
    told: "Refused 41 NotProfile\n",
    ..SLOW
};

fn source_of(case: &Case) -> Source<'static> {
    let mut source = Source::new(case.input.as_bytes());
    source.spaces = case.spaces;
    source.step = case.step;
    source.interruptions = case.interruptions;
    source.fails = case.fails;
    source
}

/// Whether the run ends as the case says.
fn ends_so(alloc: Global, case: &Case) -> bool {
    let mut reader = Counted::new(source_of(case));
    let mut writer = Counted::new(Sink::new(alloc, case.room, case.end));
    let mut faults = Counted::new(Sink::new(alloc, case.room_to_tell, Some(ErrorKind::Other)));
    let status = run_edit(alloc, &mut reader, &mut writer, &mut faults);
    let written = writer.into_inner().taken;
    let told = faults.into_inner().taken;
    status == case.status
        && written.as_slice() == &OUTPUT.as_bytes()[..case.written.min(OUTPUT.len())]
        && told.as_slice() == case.told.as_bytes()
}

/// Runs over slow streams, and over streams that fail.
static CASES: [Case; 9] = [
    SLOW,
    Case {
        interruptions: 2,
        ..SLOW
    },
    Case {
        fails: true,
        ..FAILED_READ
    },
    Case {
        fails: true,
        input: "",
        ..FAILED_READ
    },
    FAILED_WRITE,
    Case {
        end: Some(ErrorKind::Other),
        ..FAILED_WRITE
    },
    Case {
        end: Some(ErrorKind::Interrupted),
        ..FAILED_WRITE
    },
    REFUSED,
    Case {
        room_to_tell: 3,
        told: "Ref",
        ..REFUSED
    },
];

#[test]
fn ends_as_its_streams_allow(rt: HostRuntime) {
    for (number, case) in CASES.iter().enumerate() {
        assert!(rt; ends_so(rt.alloc(), case), "case {number}");
    }
}

/// The most that a run reads, and the most interruptions that it takes, each with one more.
static LIMITS: [Case; 4] = [
    LARGE,
    TOO_LARGE,
    Case {
        interruptions: 2_000_000,
        ..SLOW
    },
    Case {
        interruptions: 2_000_001,
        ..FAILED_READ
    },
];

#[test]
fn reads_up_to_its_limits(rt: HostRuntime) {
    for (number, case) in LIMITS.iter().enumerate() {
        assert!(rt; ends_so(rt.alloc(), case), "case {number}");
    }
}

/// The status of a run that can't write, the spaces that it leaves, and its calls of the writer.
fn left_by_run(alloc: Global, source: Source<'static>) -> (u8, usize, u64) {
    let mut reader = Counted::new(source);
    let mut writer = Counted::new(Sink::new(alloc, 0, None));
    let mut faults = Counted::new(Sink::new(alloc, 0, None));
    let status = run_edit(alloc, &mut reader, &mut writer, &mut faults);
    (
        status,
        reader.into_inner().spaces,
        writer.into_inner().calls,
    )
}

/// Nothing is read behind the block that is too large, and nothing written.
#[test]
fn stops_where_it_gives_up(rt: HostRuntime) {
    let mut source = source_of(&TOO_LARGE);
    source.spaces = MAX_INPUT_BYTES + 1_000_000;
    source.step = 1_024;
    assert_eq!(rt; left_by_run(rt.alloc(), source), (3, 1_000_000, 0));
}
