//! A master: it owns a ticket, sends parts of it to workers, and puts in what comes back.
#![tactic(auto)]

mod editing;
mod freeing;
pub mod laws;
mod master;
mod master_controller;
mod names;
mod ordering;
mod records;
mod stored;
mod taking;

pub use master::Master;
pub use names::are_apart;
pub use world_items::master_order::Order;
