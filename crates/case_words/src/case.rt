use crate::escapes::bytes_in;
use std::alloc::{AllocError, Global};
use std::str::from_utf8;

/// The words of a command, and what it reads.
#[derive(Drop)]
pub struct Case {
    pub words: Vec<String>,
    pub input: Vec<u8>,
}

impl Case {
    /// The case that a line is.
    pub fn of_line(alloc: Global, line: &[u8]) -> Result<Case, AllocError> {
        let mut parts = line.splitn(3, |byte| *byte == b'\t');
        let words = words_in(alloc, parts.next().unwrap_or(&[]))?;
        let mut input = bytes_in(alloc, parts.next().unwrap_or(&[]))?;
        push_spaces(alloc, &mut input, number_in(parts.next().unwrap_or(&[])))?;
        Ok(Case { words, input })
    }
}

/// The words with a space between two; no word in an empty text.
fn words_in(alloc: Global, text: &[u8]) -> Result<Vec<String>, AllocError> {
    let mut words = Vec::new(alloc);
    if !text.is_empty() {
        for word in text.split(|byte| *byte == b' ') {
            words.push(word_in(alloc, word)?)?;
        }
    }
    Ok(words)
}

/// One word.
fn word_in(alloc: Global, word: &[u8]) -> Result<String, AllocError> {
    let bytes = bytes_in(alloc, word)?;
    String::from_utf8_lossy(alloc, bytes.as_slice())
}

/// The number that a text is, or 0.
pub fn number_in(text: &[u8]) -> usize {
    from_utf8(text).unwrap_or("").parse::<usize>().unwrap_or(0)
}

/// Appends spaces.
fn push_spaces(alloc: Global, input: &mut Vec<u8>, count: usize) -> Result<(), AllocError> {
    let spaces = vec![in alloc; b' '; count]?;
    input.extend_from_slice(spaces.as_slice())
}
