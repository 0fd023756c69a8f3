use journal::{FileJournal, Journal};
use std::fs;
use std::test::Fail;

/// Lines behind what a file holds, and what it holds then.
const APPENDED: [(&str, &str, &str); 3] = [
    ("", "{}\n", "{}\n"),
    ("{}\n", "[]\n", "{}\n[]\n"),
    ("{", "[]\n{}\n", "{\n[]\n{}\n"),
];

#[test]
fn lines_stand_behind_what_a_file_holds(rt: HostRuntime) -> Result<(), Fail> {
    for (held, lines, left) in APPENDED {
        fs::write(&rt, "held", held)?;
        let mut journal = FileJournal::at(&rt, Some("held"));
        assert!(rt; journal.append(lines.as_bytes()), "{lines}");
        let read = fs::read_to_string(&rt, "held")?;
        assert_eq!(rt; read.as_str(), left, "{held}");
    }
    fs::remove_file(&rt, "held")?;
    Ok(())
}

#[test]
fn a_line_without_a_file_is_missed(rt: HostRuntime) -> Result<(), Fail> {
    let mut journal = FileJournal::at(&rt, Some("no folder/held"));
    assert!(rt; journal.check().is_err(), "it can't be opened");
    assert!(rt; !journal.append(b"{}\n"), "it isn't kept");
    let note = journal.note(rt.alloc())?;
    assert!(rt; note.is_some(), "that is told");
    Ok(())
}
