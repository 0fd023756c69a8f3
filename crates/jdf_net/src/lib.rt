//! What the program does over the network, and the words of its command line.
#![tactic(auto)]

mod serve_command;
mod words;

pub use jdf_loop::run_loop;
pub use jdf_send::{SendOrder, run_send, run_send_order};
pub use jdf_server::Service;
pub use serve_command::run_serve;
pub use words::{NO_CALL, run_words};
