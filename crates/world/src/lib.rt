//! A shop as a whole: a master, its workers, and the messages between them, over a network that
//! loses, repeats and reorders, with controllers that stop and are started again.
#![tactic(auto)]

mod apart;
mod beginning;
mod carrier;
pub mod laws;
mod memory;
mod seats;
mod sent;
mod stepping;
mod workers;
mod world;

pub use beginning::{Keepers, begin};
pub use carrier::{Carrier, Direct};
pub use seats::Seats;
pub use world::World;
