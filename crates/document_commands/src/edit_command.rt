//! The command `edit`: from the bytes of a job ticket and edits of it to a line for each edit and
//! the ticket that they leave.

mod command;
mod document;
mod edit_output;
pub mod laws;
mod raw_document;
mod run;

pub use command::run_edit;
pub(crate) use edit_output::check_document;
