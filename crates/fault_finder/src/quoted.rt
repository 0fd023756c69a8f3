//! Texts of a document, as they are told.

use std::alloc::{AllocError, Global};
use std::fmt;

/// How many characters of a text are told.
const MAX_TOLD: usize = 64;

/// A text of a document as it is told: between quotes, as JSON has it, and cut where it is long, so
/// that it stays on its line.
#[derive(Clone, Copy)]
pub(crate) struct QuotedText<'a>(pub &'a str);

/// Writes a character as JSON has it within quotes. What isn't printed is told by its number.
fn write_character<W: fmt::Write>(f: &mut fmt::Formatter<W>, character: char) -> fmt::Result {
    match character {
        '"' => f.write_str("\\\""),
        '\\' => f.write_str("\\\\"),
        '\n' => f.write_str("\\n"),
        '\r' => f.write_str("\\r"),
        '\t' => f.write_str("\\t"),
        '\0'..='\u{1f}' | '\u{7f}'..='\u{9f}' => write!(f, "\\u{:04x}", character as u32),
        _ => write!(f, "{character}"),
    }
}

impl fmt::Display for QuotedText<'_> {
    fn fmt<W: fmt::Write>(&self, f: &mut fmt::Formatter<W>) -> fmt::Result {
        f.write_str("\"")?;
        for (place, character) in self.0.chars().enumerate() {
            if place == MAX_TOLD {
                return f.write_str("..\"");
            }
            write_character(f, character)?;
        }
        f.write_str("\"")
    }
}

/// Words, each between quotes, with commas between them.
pub(crate) fn quoted_list(alloc: Global, words: &[&str]) -> Result<String, AllocError> {
    let mut list = String::new(alloc);
    for word in words {
        if !list.is_empty() {
            list.push_str(", ")?;
        }
        list.push_str("\"")?;
        list.push_str(word)?;
        list.push_str("\"")?;
    }
    Ok(list)
}
