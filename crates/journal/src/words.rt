use std::alloc::{AllocError, Global};
use std::io;

/// What stands before the number of an error in the system's words for it.
fn before_number(text: &str) -> &str {
    match text.split_once(" (os error ") {
        Some((words, _)) => words,
        None => text,
    }
}

/// The system's words for an error, without its number.
pub fn system_words(alloc: Global, error: &io::Error) -> Result<String, AllocError> {
    let text = format!(in alloc; "{error}")?;
    String::from_str(alloc, before_number(text.as_str()))
}
