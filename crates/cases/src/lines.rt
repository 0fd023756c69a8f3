//! From the lines of the input to what comes of them.

use crate::answers::answer;
use crate::cuts::cut_answers;
use case_words::Case;
use keepers::Locks;
use std::alloc::{Alloc, AllocError, Global};
use std::io::{self, Read, Write};
use std::net::Net;
use std::time::Clock;

/// Writes what comes of each line of the input, after the whole input was read.
pub fn write_answers<R: Locks + Net + Clock + Alloc + Clone + Drop, I: Read, W: Write>(
    rt: &R,
    alloc: Global,
    reader: &mut I,
    writer: &mut W,
) -> io::Result<()> {
    let mut input = Vec::new(alloc);
    reader.read_to_end(&mut input)?;
    let mut output = Vec::new(alloc);
    for line in without_end(input.as_slice()).split(|byte| *byte == b'\n') {
        push_answer(rt, alloc, &mut output, line)?;
    }
    writer.write_all(output.as_slice())
}

/// The lines without the end of the last one.
fn without_end(lines: &[u8]) -> &[u8] {
    lines.strip_suffix(b"\n").unwrap_or(lines)
}

/// Appends what comes of a line.
fn push_answer<R: Locks + Net + Clock + Alloc + Clone + Drop>(
    rt: &R,
    alloc: Global,
    output: &mut Vec<u8>,
    line: &[u8],
) -> Result<(), AllocError> {
    if line.is_empty() || line.starts_with(b"#") {
        output.extend_from_slice(line)?;
        return output.push(b'\n').map_err(AllocError::from);
    }
    let answers = match line.strip_prefix(b"cuts ") {
        Some(line) => cut_answers(rt, alloc, line)?,
        None => answer(rt, alloc, &Case::of_line(alloc, line)?)?,
    };
    output.extend_from_slice(answers.as_slice())
}
