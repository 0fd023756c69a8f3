//! The command `world`: from the bytes of a script to a line for each event and the ticket that
//! the master is left with.

mod command;
mod world_output;

pub use command::run_world;
pub use world_output::push_line;
