//! A master's ticket: who holds what of it, and what it shows.

use crate::files::locked;
use crate::forms::line_of;
use json_profile::shown_value;
use keepers::Locks;
use master_core::Master;
use spawn::Holder;
use std::alloc::{AllocError, Global};
use stored_state::{AnyKept, open_any};
use streams::Refused;
use ticket_tree::{Duplicate, Id, Refusal};

/// `holders FILE ID ..`: who holds each id, and whether the master may change it. `marked FILE`:
/// the ticket with a copy of its marks, as a value.
pub fn line_in<R: Locks>(
    rt: &R,
    alloc: Global,
    word: &str,
    file: &str,
    ids: &[String],
) -> Result<Vec<u8>, Refused> {
    match open_any(alloc, locked(rt, alloc, file)?)? {
        AnyKept::Master(kept) => Ok(line_for(alloc, word, kept.controller(), ids)?),
        AnyKept::Worker(_) => Err(Refused::Core(Refusal::NotProfile)),
    }
}

/// The line that a word asks for.
fn line_for(
    alloc: Global,
    word: &str,
    master: &Master,
    ids: &[String],
) -> Result<Vec<u8>, Refusal> {
    match word {
        "holders" => holders_line(alloc, master, ids),
        _ => marked_line(alloc, master),
    }
}

/// The line of the ticket with its marks.
fn marked_line(alloc: Global, master: &Master) -> Result<Vec<u8>, Refusal> {
    let marks = master.shown(alloc)?;
    let copy = marks.copy(alloc)?;
    Ok(line_of(alloc, &shown_value(alloc, master.ticket(), &copy)?)?)
}

/// The line for ids.
fn holders_line(alloc: Global, master: &Master, ids: &[String]) -> Result<Vec<u8>, Refusal> {
    let mut text = String::new(alloc);
    for id in ids {
        if !text.is_empty() {
            text.push_str(", ")?;
        }
        push_held(alloc, &mut text, master, &Id::new(alloc, id.as_str())?)?;
    }
    text.push('\n')?;
    Ok(text.into_bytes())
}

/// Appends who holds something.
fn push_holder(
    alloc: Global,
    text: &mut String,
    holder: Option<&Holder>,
) -> Result<(), AllocError> {
    match holder {
        None => text.push_str(" None"),
        Some(Holder::Master) => text.push_str(" Master"),
        Some(Holder::Spawn(spawn)) => {
            text.push(' ')?;
            text.push_str(spawn.to_id(alloc)?.as_str())
        }
    }
}

/// Appends who holds an id, and whether the master may change it.
fn push_held(alloc: Global, text: &mut String, master: &Master, id: &Id) -> Result<(), AllocError> {
    text.push_str(id.as_str())?;
    push_holder(alloc, text, master.holder_of(id).as_ref())?;
    text.push_str(if master.may_change(id) {
        " may"
    } else {
        " may not"
    })
}
