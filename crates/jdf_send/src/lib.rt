//! The commands that send to a controller which serves over HTTP: `send`, and `order` with
//! `--send`; and the file that an input comes from.
#![tactic(auto)]

// Not proved: what bytes a file or a socket gives or takes: neither what a file held or holds, nor
// what a client sent, or is answered.

mod input_file;
mod order_command;
mod send_command;

pub use input_file::{file_of, open_input};
pub use order_command::{SendOrder, run_send_order};
pub use send_command::run_send;
