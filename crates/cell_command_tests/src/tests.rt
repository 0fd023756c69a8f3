mod beginning;
mod lent;
mod stepping;
mod texts;

use cell_commands::CellFault;
use cells::{Cell, Deed, ScriptedCell};
use lent::LentCell;
use std::alloc::{AllocError, Global};

/// What a cell makes of a call.
#[derive(Clone, Copy)]
pub enum Turn {
    /// It is answered.
    Answer,
    /// Another's swap by this text comes first.
    Other(&'static str),
    /// It is made, and not answered.
    Mute,
    /// It comes to nothing, and isn't answered.
    Lose,
    /// It may come later, and isn't answered.
    Delay,
    /// What was delayed comes first.
    Land,
}

/// What a script makes of a call.
fn deed(alloc: Global, turn: Turn) -> Result<Deed, AllocError> {
    match turn {
        Turn::Answer => Ok(Deed::Answer),
        Turn::Other(text) => Ok(Deed::Interrupt(Vec::from_slice(alloc, text.as_bytes())?)),
        Turn::Mute => Ok(Deed::Mute),
        Turn::Lose => Ok(Deed::Lose),
        Turn::Delay => Ok(Deed::Delay),
        Turn::Land => Ok(Deed::Land),
    }
}

/// A cell that holds a text, or none, and then follows a script.
fn cell_with(
    alloc: Global,
    held: Option<&str>,
    turns: &[Turn],
) -> Result<ScriptedCell, AllocError> {
    let mut script = Vec::new(alloc);
    if held.is_some() {
        script.push(Deed::Answer)?;
    }
    for turn in turns {
        script.push(deed(alloc, *turn)?)?;
    }
    let mut cell = ScriptedCell::new(alloc, script);
    if let Some(text) = held {
        let _ = cell.swap(0, text.as_bytes());
    }
    Ok(cell)
}

/// What a cell holds.
fn held(cell: &ScriptedCell) -> &[u8] {
    match cell.chain().first() {
        Some(version) => version.bytes(),
        None => b"",
    }
}

/// A cell, as long as it is lent.
fn lend(cell: &mut ScriptedCell) -> LentCell<'_, ScriptedCell> {
    LentCell::new(cell)
}

/// A fault, in a word.
fn word_of(fault: &CellFault) -> &'static str {
    match fault {
        CellFault::Call(fault) => fault.line(),
        CellFault::Unread => "Unread",
        CellFault::Taken => "Taken",
        CellFault::Unanswered => "Unanswered",
        CellFault::Overtaken => "Overtaken",
        CellFault::TooLarge => "TooLarge",
    }
}
