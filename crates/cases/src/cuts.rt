//! Inputs that are cut off.

use crate::answers::answer;
use case_words::Case;
use keepers::Locks;
use std::alloc::{Alloc, AllocError, Global};
use std::net::Net;
use std::time::Clock;

/// What comes of a case, cut to no byte of its input, to one, and so on to all but one. Cuts one
/// after another of which the same comes are told together, behind a line with the first and the
/// last of them.
pub fn cut_answers<R: Locks + Net + Clock + Alloc + Clone + Drop>(
    rt: &R,
    alloc: Global,
    line: &[u8],
) -> Result<Vec<u8>, AllocError> {
    let whole = Case::of_line(alloc, line)?;
    let mut cut = Case::of_line(alloc, line)?;
    let mut answers = Vec::new(alloc);
    let mut first = 0;
    let mut same = Vec::new(alloc);
    for length in 0..whole.input.len() {
        cut.input = Vec::from_slice(alloc, &whole.input[..length])?;
        let next = answer(rt, alloc, &cut)?;
        if length > first && next.as_slice() != same.as_slice() {
            push_answers(alloc, &mut answers, first, length - 1, same.as_slice())?;
            first = length;
        }
        same = next;
    }
    if let Some(last) = whole.input.len().checked_sub(1) {
        push_answers(alloc, &mut answers, first, last, same.as_slice())?;
    }
    Ok(answers)
}

/// Appends what comes of the cuts from one length to another.
fn push_answers(
    alloc: Global,
    answers: &mut Vec<u8>,
    first: usize,
    last: usize,
    same: &[u8],
) -> Result<(), AllocError> {
    answers.extend_from_slice(format!(in alloc; "{first}..{last}\n")?.as_bytes())?;
    answers.extend_from_slice(same)
}
