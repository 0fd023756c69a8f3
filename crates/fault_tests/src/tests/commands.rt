//! Commands on a file over streams that fail, and what they read.

use super::fakes::{Sink, Source};
use super::texts::{NO_ENTRY, OPEN_ENTRY, SUBMIT};
use file_commands::run_file;
use jdf_words::{Call, command_of};
use journal::FileJournal;
use std::alloc::{AllocError, Global};
use std::fs;
use std::io::ErrorKind;
use std::test::Fail;
use streams::Counted;

/// What the file has before, if it is there; the words; whether reading fails, and how many bytes
/// are written before writing does; and how that ends: the status, what is told, whether anything
/// was read, and what the file has then.
#[derive(Clone, Copy)]
struct Case {
    before: Option<&'static str>,
    words: &'static str,
    input: &'static str,
    fails: bool,
    room: usize,
    status: u8,
    told: &'static str,
    reads: bool,
    after: Option<&'static str>,
}

/// A message that is taken, over streams that work.
const TAKEN: Case = Case {
    before: Some(NO_ENTRY),
    words: "take fault.json --at 110",
    input: SUBMIT,
    fails: false,
    room: 1_000,
    status: 0,
    told: "",
    reads: true,
    after: Some(OPEN_ENTRY),
};

const NOT_READ: Case = Case {
    fails: true,
    status: 4,
    told: "Refused 55 ReadFailed\n",
    after: Some(NO_ENTRY),
    ..TAKEN
};

const NOT_WRITTEN: Case = Case {
    room: 7,
    status: 4,
    told: "Refused 56 WriteFailed\n",
    ..TAKEN
};

const NOT_LOADED: Case = Case {
    before: None,
    status: 4,
    told: "Refused 59 LoadFailed\n",
    reads: false,
    after: None,
    ..TAKEN
};

static CASES: [Case; 10] = [
    TAKEN,
    NOT_READ,
    Case {
        words: "order fault.json --at 120",
        ..NOT_READ
    },
    Case {
        before: None,
        words: "new fault.json",
        after: None,
        ..NOT_READ
    },
    NOT_WRITTEN,
    Case {
        before: Some(OPEN_ENTRY),
        words: "show fault.json",
        reads: false,
        ..NOT_WRITTEN
    },
    NOT_LOADED,
    Case {
        words: "order fault.json --at 120",
        ..NOT_LOADED
    },
    Case {
        words: "show fault.json",
        ..NOT_LOADED
    },
    Case {
        before: Some(OPEN_ENTRY),
        words: "new fault.json",
        told: "Refused 57 SaveFailed\n",
        after: Some(OPEN_ENTRY),
        ..NOT_LOADED
    },
];

/// The words of a text, between which a space stands.
fn words_in(alloc: Global, text: &str) -> Result<Vec<String>, AllocError> {
    let mut words = Vec::new(alloc);
    for word in text.split(' ') {
        words.push(String::from_str(alloc, word)?)?;
    }
    Ok(words)
}

/// Whether the command ends as the case says, but for the file.
fn ends_so(rt: &HostRuntime, case: &Case) -> Result<bool, AllocError> {
    let mut source = Source::new(case.input.as_bytes());
    source.fails = case.fails;
    let mut reader = Counted::new(source);
    let mut writer = Counted::new(Sink::new(rt.alloc(), case.room, Some(ErrorKind::Other)));
    let mut faults = Counted::new(Sink::new(rt.alloc(), 1_000, None));
    let words = words_in(rt.alloc(), case.words)?;
    let Ok(asked) = command_of(rt.alloc(), words.as_slice()) else {
        return Ok(false);
    };
    let Call::Kept { file, call } = asked.call else {
        return Ok(false);
    };
    let mut journal = FileJournal::at(rt, None);
    let status = run_file(
        rt,
        rt.alloc(),
        file,
        call,
        &mut reader,
        &mut writer,
        &mut faults,
        &mut journal,
    );
    let told = faults.into_inner().taken;
    Ok(
        status == case.status
            && told.as_slice() == case.told.as_bytes()
            && (reader.calls() > 0) == case.reads,
    )
}

/// Whether the file has this, or isn't there.
fn has(rt: &HostRuntime, expected: Option<&str>) -> bool {
    match (fs::read_to_string(rt, "fault.json"), expected) {
        (Ok(text), Some(expected)) => text.as_str() == expected,
        (found, expected) => found.is_err() && expected.is_none(),
    }
}

#[test]
fn ends_as_streams_and_files_allow(rt: HostRuntime) -> Result<(), Fail> {
    for (number, case) in CASES.iter().enumerate() {
        let _ = fs::remove_file(&rt, "fault.json");
        if let Some(before) = case.before {
            fs::write(&rt, "fault.json", before)?;
        }
        assert!(rt; ends_so(&rt, case)?, "case {number}");
        assert!(rt; has(&rt, case.after), "case {number}");
    }
    let _ = fs::remove_file(&rt, "fault.json");
    Ok(())
}
