//! From a case to what comes of it.

use crate::program::program_answer;
use case_words::{Case, exchange_answer, other_answer};
use keepers::Locks;
use std::alloc::{Alloc, AllocError, Global};
use std::net::Net;
use std::time::Clock;

/// What comes of a case.
pub fn answer<R: Locks + Net + Clock + Alloc + Clone + Drop>(
    rt: &R,
    alloc: Global,
    case: &Case,
) -> Result<Vec<u8>, AllocError> {
    if let Some(answer) = exchange_answer(rt, alloc, case)? {
        return Ok(answer);
    }
    match other_answer(rt, alloc, case)? {
        Some(answer) => Ok(answer),
        None => program_answer(rt, alloc, case),
    }
}
