//! What no text shows: readers, writers and keepers that fail in mid-course. The tests call what
//! the program calls.
#![tactic(auto)]

#[cfg(test)]
mod tests;
