use cells::{Cell, CellKeep, Deed, ScriptedCell, Step, SwapResult, step_anew};
use keepers::{Keep, KeepFault};
use std::alloc::{AllocError, Global};
use std::test::Fail;

/// A step that adds a byte, and gives how many there were.
#[derive(Drop)]
struct Add(u8);

impl Step for Add {
    type Given = usize;

    ghost use Rattle.std.specs.Prelude.{⊤};

    ghost makes = { λ _ _ _ _. ⊤ };

    fn make(&self, alloc: Global, bytes: &[u8]) -> Result<(Vec<u8>, usize), AllocError> {
        let mut more = Vec::from_slice(alloc, bytes)?;
        more.push(self.0)?;
        Ok((more, bytes.len()))
    }
}

/// A cell that holds `a`, and then follows this script.
fn cell(alloc: Global, script: Vec<Deed>) -> Result<ScriptedCell, AllocError> {
    let mut whole = Vec::new(alloc);
    whole.push(Deed::Answer)?;
    for deed in script {
        whole.push(deed)?;
    }
    let mut cell = ScriptedCell::new(alloc, whole);
    let _ = cell.swap(0, b"a");
    Ok(cell)
}

/// What the cell of a keeper holds.
fn held<'a>(keep: &'a CellKeep<ScriptedCell>) -> &'a [u8] {
    match keep.cell().chain().first() {
        Some(version) => version.bytes(),
        None => b"",
    }
}

#[test]
fn a_save_of_what_was_loaded_swaps_nothing(rt: HostRuntime) -> Result<(), Fail> {
    let mut keep = CellKeep::over(rt.alloc(), cell(rt.alloc(), Vec::new(rt.alloc()))?);
    assert_eq!(rt; keep.save(b"a"), Err(KeepFault::Failed));
    assert_eq!(rt; keep.load()?.as_slice(), b"a".as_slice());
    assert_eq!(rt; keep.save(b"a"), Ok(()));
    assert_eq!(rt; keep.cell().chain().len(), 1);
    assert_eq!(rt; keep.save(b"b"), Ok(()));
    assert_eq!(rt; keep.save(b"c"), Ok(()));
    assert_eq!(rt; keep.cell().chain().len(), 3);
    Ok(())
}

#[test]
fn a_step_is_made_anew_on_what_is_held(rt: HostRuntime) -> Result<(), Fail> {
    let mut script = Vec::new(rt.alloc());
    script.push(Deed::Answer)?;
    script.push(Deed::Interrupt(Vec::from_slice(rt.alloc(), b"xyz")?))?;
    let mut keep = CellKeep::over(rt.alloc(), cell(rt.alloc(), script)?);
    assert_eq!(rt; step_anew(rt.alloc(), &mut keep, &Add(b'b')), Ok(3));
    assert_eq!(rt; held(&keep), b"xyzb".as_slice());
    Ok(())
}

#[test]
fn sixteen_conflicts_are_enough(rt: HostRuntime) -> Result<(), Fail> {
    for (count, is_made) in [(15, true), (16, false)] {
        let mut script = Vec::new(rt.alloc());
        for _ in 0..count {
            script.push(Deed::Answer)?;
            script.push(Deed::Interrupt(Vec::from_slice(rt.alloc(), b"x")?))?;
        }
        let mut keep = CellKeep::over(rt.alloc(), cell(rt.alloc(), script)?);
        let given = step_anew(rt.alloc(), &mut keep, &Add(b'b'));
        assert_eq!(rt; given.is_ok(), is_made, "{count}");
        assert_eq!(rt; keep.is_conflict(), !is_made, "{count}");
    }
    Ok(())
}

#[test]
fn no_lost_answer_is_ok(rt: HostRuntime) -> Result<(), Fail> {
    for (deed, chain) in [(Deed::Mute, "b"), (Deed::Lose, "a"), (Deed::Delay, "a")] {
        let mut script = Vec::new(rt.alloc());
        script.push(Deed::Answer)?;
        script.push(deed)?;
        script.push(Deed::Answer)?;
        script.push(Deed::Land)?;
        let mut keep = CellKeep::over(rt.alloc(), cell(rt.alloc(), script)?);
        let given = step_anew(rt.alloc(), &mut keep, &Add(b'b'));
        assert_eq!(rt; given, Err(KeepFault::Failed), "{chain}");
        assert!(rt; !keep.is_conflict(), "{chain}");
        let loaded = keep.load()?;
        assert_eq!(rt; loaded.len(), if chain == "b" { 2 } else { 1 }, "{chain}");
        assert_eq!(rt; keep.load()?.as_slice(), loaded.as_slice(), "{chain}");
    }
    Ok(())
}

#[test]
fn nothing_is_loaded_while_a_swap_is_open(rt: HostRuntime) -> Result<(), Fail> {
    let mut script = Vec::new(rt.alloc());
    script.push(Deed::Answer)?;
    script.push(Deed::Delay)?;
    script.push(Deed::Lose)?;
    script.push(Deed::Lose)?;
    let mut keep = CellKeep::over(rt.alloc(), cell(rt.alloc(), script)?);
    assert_eq!(rt;
        step_anew(rt.alloc(), &mut keep, &Add(b'b')),
        Err(KeepFault::Failed)
    );
    assert_eq!(rt; keep.load().err(), Some(KeepFault::Failed));
    assert_eq!(rt; keep.failures(), 2);
    assert_eq!(rt; keep.load()?.as_slice(), b"a".as_slice());
    Ok(())
}

#[test]
fn what_is_there_is_not_made_again(rt: HostRuntime) -> Result<(), Fail> {
    let mut keep = CellKeep::over_new(rt.alloc(), cell(rt.alloc(), Vec::new(rt.alloc()))?);
    assert_eq!(rt; keep.save(b"n"), Err(KeepFault::Failed));
    assert!(rt; keep.is_conflict());
    let empty = ScriptedCell::new(rt.alloc(), Vec::new(rt.alloc()));
    let mut keep = CellKeep::over_new(rt.alloc(), empty);
    assert_eq!(rt; keep.save(b"n"), Ok(()));
    assert_eq!(rt; held(&keep), b"n".as_slice());
    Ok(())
}

#[test]
fn nothing_is_loaded_where_nothing_was_held(rt: HostRuntime) {
    let mut cell = ScriptedCell::new(rt.alloc(), Vec::new(rt.alloc()));
    assert_eq!(rt; cell.swap(7, b"a"), SwapResult::Other);
    let mut keep = CellKeep::over(rt.alloc(), cell);
    assert_eq!(rt; keep.load().err(), Some(KeepFault::Failed));
}

#[test]
fn a_beginning_without_an_answer_is_settled(rt: HostRuntime) -> Result<(), Fail> {
    for (deed, bytes) in [(Deed::Mute, "n"), (Deed::Lose, ""), (Deed::Delay, "")] {
        let mut script = Vec::new(rt.alloc());
        script.push(deed)?;
        let cell = ScriptedCell::new(rt.alloc(), script);
        let mut keep = CellKeep::over_new(rt.alloc(), cell);
        assert_eq!(rt; keep.save(b"n"), Err(KeepFault::Failed), "{bytes}");
        assert_eq!(rt; keep.load()?.as_slice(), bytes.as_bytes(), "{bytes}");
    }
    Ok(())
}
