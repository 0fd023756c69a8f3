//! Workers: controllers that take parts of a master's ticket, work on them and give them back.
#![tactic(auto)]

mod edits;
mod entries;
mod entry;
pub mod laws;
mod ordering;
mod stage;
mod stored;
mod taking;
mod worker;
mod worker_controller;

pub use entry::Entry;
pub use stage::Stage;
pub use worker::Worker;
pub use world_items::End;
pub use world_items::worker_order::Order;
