//! The calls of the program of a document, over readers and writers: `world`, and any other, by the
//! commands on documents.
#![tactic(auto)]

mod run;
mod world_command;

pub use run::run_document;
pub use world_command::{push_line, run_world};
