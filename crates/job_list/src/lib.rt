//! What is with another controller, or came from one: a list of the spawns of a master, and of the
//! entries of a worker.
#![tactic(auto)]

pub mod laws;
mod work;
mod work_phase;
mod works;

pub use work::{Work, descriptive_name, known_id, known_name};
pub use work_phase::WorkPhase;
pub use works::{push_entries, push_spawns};
