//! The program over a reader and writers in memory.

use case_words::Case;
use jdf_net::run_words;
use keepers::Locks;
use std::alloc::{Alloc, AllocError, Global};
use std::net::Net;
use std::time::Clock;
use streams::Counted;

/// What the program writes for a case, what it tells, and its exit status.
pub fn program_answer<R: Locks + Net + Clock + Alloc + Clone + Drop>(
    rt: &R,
    alloc: Global,
    case: &Case,
) -> Result<Vec<u8>, AllocError> {
    let mut reader = Counted::new(case.input.as_slice());
    let mut writer = Counted::new(Vec::new(alloc));
    let mut faults = Counted::new(Vec::new(alloc));
    let words = case.words.as_slice();
    let status = run_words(rt, alloc, words, &mut reader, &mut writer, &mut faults);
    let mut answer = writer.into_inner();
    answer.extend_from_slice(faults.into_inner().as_slice())?;
    answer.extend_from_slice(format!(in alloc; "status {status}\n")?.as_bytes())?;
    Ok(answer)
}
