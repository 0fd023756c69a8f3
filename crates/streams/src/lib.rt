//! Bytes that come in and go out: readers and writers whose calls are counted, so that a contract
//! can say that a call failed; whole inputs and whole outputs; the refusals of calls over bytes,
//! files or connections; and commands that read, write, and tell why they gave up.
#![tactic(auto)]

mod command;
mod counted;
mod fault;
mod input;
mod once;
mod output;
mod reading;
mod refused;
mod told;
mod writing;

pub use command::{Command, Output, finish, output_of, run_command};
pub use counted::{Counted, is_interruption};
pub use fault::Fault;
pub use input::{MAX_INPUT_BYTES, read_input};
pub use output::write_bytes;
pub use refused::Refused;
pub use told::tell;
