use super::texts::{DECLINED, DECLINED_AND_OPEN, FINISH, NO_ENTRY, OPEN_ENTRY, SUBMIT};
use super::{Turn, cell_with, held, lend, word_of};
use cell_commands::{CellFault, output_in_cell};
use cells::Cell;
use file_commands::OutputWithNotes;
use jdf_words::KeptCall;
use journal::MemoryJournal;
use std::alloc::Global;
use std::test::Fail;
use streams::Counted;

/// What a cell holds and makes of the calls, the call and its input; and what comes of it: the
/// first line that is written, or why none is; whether something was refused; whether the input was
/// read; how many lines the journal has; and what the cell holds then, as which version.
#[derive(Clone, Copy)]
struct Case {
    held: Option<&'static str>,
    turns: &'static [Turn],
    asked: Asked,
    input: &'static str,
    comes: Result<&'static str, (&'static str, u8)>,
    refused: bool,
    reads: bool,
    lines: usize,
    after: &'static str,
    versions: usize,
}

/// A call on the cell.
#[derive(Clone, Copy)]
enum Asked {
    Take,
    Order,
    Show,
}

/// The call, at 110.
fn call_of(asked: Asked) -> KeptCall {
    match asked {
        Asked::Take => KeptCall::Take { at: 110 },
        Asked::Order => KeptCall::Order { at: 110 },
        Asked::Show => KeptCall::Show {
            picture: false,
            at: None,
        },
    }
}

/// The part is taken: a look, a load, a swap.
const TAKEN: Case = Case {
    held: Some(NO_ENTRY),
    turns: &[],
    asked: Asked::Take,
    input: SUBMIT,
    comes: Ok("Taken S1"),
    refused: false,
    reads: true,
    lines: 1,
    after: OPEN_ENTRY,
    versions: 2,
};

/// Nothing of it is known.
const LOST: Case = Case {
    comes: Err(("Unanswered", 4)),
    lines: 0,
    ..TAKEN
};

/// Nothing is there.
const NOTHING: Case = Case {
    held: None,
    comes: Err(("Unread", 4)),
    reads: false,
    lines: 0,
    after: "",
    versions: 0,
    ..TAKEN
};

/// It is told that nothing changes.
const SAME: Case = Case {
    held: Some(OPEN_ENTRY),
    comes: Ok("Again S1"),
    versions: 1,
    ..TAKEN
};

static CASES: [Case; 16] = [
    TAKEN,
    // Another's step comes first, once.
    Case {
        turns: &[Turn::Answer, Turn::Answer, Turn::Other(DECLINED)],
        after: DECLINED_AND_OPEN,
        versions: 3,
        ..TAKEN
    },
    // It is made, and no answer comes; the touch finds that another came first.
    Case {
        turns: &[Turn::Answer, Turn::Answer, Turn::Mute],
        ..LOST
    },
    // It is made, and no answer comes to the touch either.
    Case {
        turns: &[Turn::Answer, Turn::Answer, Turn::Mute, Turn::Lose],
        ..LOST
    },
    // It is lost, and the touch sees to it that it stays so.
    Case {
        turns: &[Turn::Answer, Turn::Answer, Turn::Lose],
        after: NO_ENTRY,
        versions: 2,
        ..LOST
    },
    // It is late, and the touch comes first.
    Case {
        turns: &[
            Turn::Answer,
            Turn::Answer,
            Turn::Delay,
            Turn::Answer,
            Turn::Land,
        ],
        after: NO_ENTRY,
        versions: 2,
        ..LOST
    },
    // It is late, and comes before the touch.
    Case {
        turns: &[Turn::Answer, Turn::Answer, Turn::Delay, Turn::Land],
        ..LOST
    },
    // It comes when all is over.
    Case {
        turns: &[
            Turn::Answer,
            Turn::Answer,
            Turn::Delay,
            Turn::Lose,
            Turn::Land,
        ],
        ..LOST
    },
    // The load behind the input isn't answered.
    Case {
        turns: &[Turn::Answer, Turn::Lose],
        comes: Err(("Unread", 4)),
        after: NO_ENTRY,
        versions: 1,
        ..LOST
    },
    NOTHING,
    Case {
        asked: Asked::Show,
        ..NOTHING
    },
    // What is there is no controller's state.
    Case {
        held: Some("[]"),
        comes: Err(("Refused 41 NotProfile\n", 4)),
        after: "[]",
        versions: 1,
        ..NOTHING
    },
    SAME,
    // An order that is refused swaps nothing, and stands in no journal.
    Case {
        held: Some(NO_ENTRY),
        asked: Asked::Order,
        input: FINISH,
        comes: Ok("Refused 30 UnknownEntry"),
        refused: true,
        lines: 0,
        after: NO_ENTRY,
        ..SAME
    },
    // One that is none is refused as the input.
    Case {
        held: Some(NO_ENTRY),
        asked: Asked::Order,
        input: "{}",
        comes: Err(("Refused 41 NotProfile\n", 3)),
        lines: 0,
        after: NO_ENTRY,
        ..SAME
    },
    Case {
        asked: Asked::Show,
        reads: false,
        comes: Ok("S1 Open {"),
        lines: 0,
        ..SAME
    },
];

/// Whether this comes of a call.
fn is_so(came: &Result<OutputWithNotes, CellFault>, case: &Case) -> bool {
    match (came, case.comes) {
        (Ok(noted), Ok(line)) => {
            noted.output.refused == case.refused
                && noted.output.text.as_slice().starts_with(line.as_bytes())
        }
        (Err(fault), Err((word, status))) => {
            word_of(fault) == word && fault.fault().status() == status
        }
        (Ok(_), Err(_)) | (Err(_), Ok(_)) => false,
    }
}

/// How many lines a text has.
fn lines(text: &[u8]) -> usize {
    let mut count = 0_usize;
    for byte in text {
        if *byte == b'\n' {
            count = count.saturating_add(1);
        }
    }
    count
}

/// Whether a case comes to what it says.
fn holds(rt: &HostRuntime, alloc: Global, case: &Case) -> Result<bool, Fail> {
    let mut cell = cell_with(alloc, case.held, case.turns)?;
    let mut reader = Counted::new(case.input.as_bytes());
    let mut journal = MemoryJournal::new(Vec::new(alloc));
    let lent = lend(&mut cell);
    let came = output_in_cell(
        rt,
        alloc,
        lent,
        call_of(case.asked),
        Some("uid:7"),
        &mut reader,
        &mut journal,
    );
    let _ = cell.read();
    Ok(
        is_so(&came, case)
            && (reader.calls() > 0) == case.reads
            && lines(journal.text()) == case.lines
            && held(&cell) == case.after.as_bytes()
            && cell.chain().len() == case.versions,
    )
}

#[test]
fn a_step_comes_to_what_the_cell_allows(rt: HostRuntime) -> Result<(), Fail> {
    for (number, case) in CASES.iter().enumerate() {
        assert!(rt; holds(&rt, rt.alloc(), case)?, "case {number}");
    }
    Ok(())
}

#[test]
fn sixteen_others_are_enough(rt: HostRuntime) -> Result<(), Fail> {
    for (count, comes, after) in [
        (15, Ok("Taken S1"), DECLINED_AND_OPEN),
        (16, Err(("Overtaken", 4)), DECLINED),
    ] {
        let mut turns = Vec::new(rt.alloc());
        turns.push(Turn::Answer)?;
        for _ in 0..count {
            turns.push(Turn::Answer)?;
            turns.push(Turn::Other(DECLINED))?;
        }
        let mut cell = cell_with(rt.alloc(), Some(NO_ENTRY), turns.as_slice())?;
        let mut reader = Counted::new(SUBMIT.as_bytes());
        let mut journal = MemoryJournal::new(Vec::new(rt.alloc()));
        let lent = lend(&mut cell);
        let came = output_in_cell(
            &rt,
            rt.alloc(),
            lent,
            call_of(Asked::Take),
            None,
            &mut reader,
            &mut journal,
        );
        let case = Case { comes, ..TAKEN };
        assert!(rt; is_so(&came, &case), "{count}");
        assert_eq!(rt; held(&cell), after.as_bytes(), "{count}");
        assert_eq!(rt;
            lines(journal.text()),
            if comes.is_ok() { 1 } else { 0 },
            "{count}"
        );
    }
    Ok(())
}
