//! Words that the program doesn't have: files as they are, and calls that it never makes by itself.

use crate::case::Case;
use crate::{calls, changers, files, forms, masters, places, states, trees, worlds};
use jmf_message::Message;
use keepers::Locks;
use std::alloc::{AllocError, Global};
use streams::Refused;
use ticket_tree::{Edit, Part, Ticket};

/// What comes of a case whose first word the program doesn't have: a line, or the refusal's. None
/// of any other case.
pub fn other_answer<R: Locks>(
    rt: &R,
    alloc: Global,
    case: &Case,
) -> Result<Option<Vec<u8>>, AllocError> {
    let Some((word, words)) = case.words.as_slice().split_first() else {
        return Ok(None);
    };
    match called(rt, alloc, word.as_str(), words, case.input.as_slice()) {
        None => Ok(None),
        Some(Ok(answer)) => Ok(Some(answer)),
        Some(Err(refused)) => Ok(Some(Vec::from_slice(alloc, refused.line().as_bytes())?)),
    }
}

/// What comes of a word that the program doesn't have; none of any other.
fn called<R: Locks>(
    rt: &R,
    alloc: Global,
    word: &str,
    words: &[String],
    input: &[u8],
) -> Option<Result<Vec<u8>, Refused>> {
    match (word, words) {
        ("folder", [path]) => Some(files::folder(rt, alloc, path.as_str())),
        ("file", [file]) => Some(files::put(rt, alloc, file.as_str(), input)),
        ("text", [file]) => Some(files::text(rt, alloc, file.as_str())),
        ("holders", [file, ids @ ..]) => {
            Some(masters::line_in(rt, alloc, word, file.as_str(), ids))
        }
        ("marked", [file]) => Some(masters::line_in(rt, alloc, word, file.as_str(), &[])),
        ("below" | "subtree" | "home", ids) => Some(places::place(alloc, word, ids, input)),
        ("kept", [name]) => Some(worlds::kept(alloc, name.as_str(), input)),
        ("changers", ids) => Some(changers::changers(alloc, ids, input)),
        ("tree", rows) => Some(trees::tree(alloc, rows)),
        ("part_tree", rows) => Some(trees::part_tree(alloc, rows)),
        (_, []) => form_again(alloc, word, input),
        _ => calls::called(alloc, word, words, input),
    }
}

/// What is written of a form for a word that stands alone; none for any other word.
fn form_again(alloc: Global, word: &str, input: &[u8]) -> Option<Result<Vec<u8>, Refused>> {
    match word {
        "value" => Some(forms::value(alloc, input)),
        "ticket" => Some(forms::again::<Ticket>(alloc, input)),
        "change" => Some(forms::again::<Edit>(alloc, input)),
        "part" => Some(forms::again::<Part>(alloc, input)),
        "state" => Some(states::again(alloc, input)),
        "state_value" => Some(states::value_again(alloc, input)),
        "message" => Some(forms::sent_again::<Message>(alloc, input)),
        "id" => Some(forms::id_line::<Message>(alloc, input)),
        "new_text" => Some(calls::new_text(alloc, input)),
        _ => None,
    }
}
