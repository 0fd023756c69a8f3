use super::texts::{DECLINED, NO_ENTRY, OPENING};
use super::{Turn, cell_with, held, lend, word_of};
use cell_commands::new_in_cell;
use cells::Cell;
use std::test::Fail;
use streams::Counted;

/// What a cell holds and makes of the calls; and what comes of `new`, whether the input is read,
/// and what the cell holds then.
struct Case {
    held: Option<&'static str>,
    turns: &'static [Turn],
    comes: Option<&'static str>,
    reads: bool,
    after: &'static str,
}

static CASES: [Case; 6] = [
    Case {
        held: None,
        turns: &[],
        comes: None,
        reads: true,
        after: NO_ENTRY,
    },
    Case {
        held: Some(DECLINED),
        turns: &[],
        comes: Some("Taken"),
        reads: false,
        after: DECLINED,
    },
    Case {
        held: None,
        turns: &[Turn::Lose],
        comes: Some("Unread"),
        reads: false,
        after: "",
    },
    Case {
        held: None,
        turns: &[Turn::Answer, Turn::Other(DECLINED)],
        comes: Some("Taken"),
        reads: true,
        after: DECLINED,
    },
    Case {
        held: None,
        turns: &[Turn::Answer, Turn::Mute],
        comes: Some("Unanswered"),
        reads: true,
        after: NO_ENTRY,
    },
    Case {
        held: None,
        turns: &[Turn::Answer, Turn::Delay, Turn::Lose, Turn::Land],
        comes: Some("Unanswered"),
        reads: true,
        after: NO_ENTRY,
    },
];

#[test]
fn a_controller_begins_where_none_is(rt: HostRuntime) -> Result<(), Fail> {
    for (number, case) in CASES.iter().enumerate() {
        let mut cell = cell_with(rt.alloc(), case.held, case.turns)?;
        let mut reader = Counted::new(OPENING.as_bytes());
        let lent = lend(&mut cell);
        let came = match new_in_cell(rt.alloc(), lent, &mut reader) {
            Ok((noted, keep)) => {
                drop(keep);
                assert!(rt; noted.output.text.is_empty(), "case {number}");
                None
            }
            Err(fault) => Some(word_of(&fault)),
        };
        let _ = cell.read();
        assert!(rt; came == case.comes, "case {number}");
        assert_eq!(rt; reader.calls() > 0, case.reads, "case {number}");
        assert_eq!(rt; held(&cell), case.after.as_bytes(), "case {number}");
    }
    Ok(())
}
