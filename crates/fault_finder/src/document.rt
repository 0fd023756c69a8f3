//! The places of a refusal in a document.

use crate::kind::Kind;
use crate::lines::Lines;
use crate::located::LocatedValue;
use crate::place::Place;
use crate::profile::Definition;
use crate::rule::Rule;
use crate::said::look_at_message;
use crate::shapes::look;
use crate::shops::{look_at_names, look_at_orders, look_at_worker};
use crate::states::look_at_state;
use crate::text::{ReadFault, located_value};
use crate::walk::Walk;
use crate::wholes::look_at_wholes;
use json::Scratch;
use std::alloc::{AllocError, Global};
use ticket_items::Refusal;

/// The definition of what a document of a kind is.
fn definition_of(document: &LocatedValue<'_>, kind: Kind) -> Definition {
    match kind {
        Kind::Ticket => Definition::Ticket,
        Kind::Edits => Definition::EditInput,
        Kind::Order => Definition::EventOrder,
        Kind::Message => Definition::Message,
        Kind::Script => Definition::Script,
        Kind::Opening => Definition::Opening,
        Kind::State => match document.member("Worker") {
            Some(_) => Definition::WorkerState,
            None => Definition::MasterState,
        },
    }
}

/// Looks at a document of a kind.
fn look_at_document<'a>(
    walk: &mut Walk<'a>,
    document: &LocatedValue<'a>,
    kind: Kind,
) -> Result<(), AllocError> {
    let definition = definition_of(document, kind);
    look(walk, document, Rule::Object(definition), definition)?;
    look_at_wholes(walk, document, kind)?;
    match kind {
        Kind::Ticket | Kind::Edits | Kind::Order => Ok(()),
        Kind::Message => look_at_message(walk, document),
        Kind::Script => {
            look_at_names(walk, document, "Master", Refusal::SameName)?;
            look_at_orders(walk, document)
        }
        Kind::Opening => {
            look_at_names(walk, document, "Master", Refusal::SameName)?;
            look_at_worker(walk, document, "Worker", Refusal::SameName)
        }
        Kind::State => look_at_state(walk, document),
    }
}

/// Tells that bytes are no JSON from a byte on.
fn tell_not_json(walk: &mut Walk<'_>, at: usize, what: &str) -> Result<(), AllocError> {
    if walk.seeks(Refusal::NotJson) {
        let text = String::from_str(walk.alloc, what)?;
        walk.tell_text(at, text)?;
    }
    Ok(())
}

/// Looks at the bytes of a document.
fn look_at_bytes<'a>(
    walk: &mut Walk<'a>,
    bytes: &'a [u8],
    scratch: &'a mut Scratch,
    kind: Kind,
) -> Result<(), AllocError> {
    let text = match std::str::from_utf8(bytes) {
        Ok(text) => text,
        Err(error) => {
            return tell_not_json(walk, error.valid_up_to(), "the byte is none of UTF-8");
        }
    };
    match located_value(walk.alloc, text, scratch) {
        Ok(document) => look_at_document(walk, &document, kind),
        Err(ReadFault::At(at, what)) => tell_not_json(walk, at, what),
        Err(ReadFault::Memory) => Err(AllocError),
    }
}

/// The places in bytes where a document of a kind is refused so, at most so many of them, as far as
/// the rules of the schema and what is known beside them tell any. Those of the schema come first,
/// in the order of the text. Refuses for want of memory alone.
// Not proved: which places are found.
pub fn places_of(
    alloc: Global,
    kind: Kind,
    bytes: &[u8],
    refusal: Refusal,
    limit: usize,
) -> Result<Vec<Place>, AllocError> {
    let lines = Lines::of(alloc, bytes)?;
    let mut scratch = Scratch::new(alloc);
    let mut walk = Walk::new(alloc, refusal, limit, lines);
    look_at_bytes(&mut walk, bytes, &mut scratch, kind)?;
    Ok(walk.into_places())
}
