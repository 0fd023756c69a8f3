//! Spawning: parts of a job's ticket are given to other controllers, and one table tells who holds
//! what of the ticket meanwhile (JDF 1.5, 4.4).
#![tactic(auto)]

mod claims;
pub mod laws;
mod parts;
mod records;
mod spawns;
mod tables;

pub use claims::apart::are_apart;
pub use parts::spawned_part::part_for;
pub use records::good::{are_good, is_good};
pub use records::of_resource::{OfResource, behind};
pub use records::phase::Phase;
pub use records::spawn_rec::SpawnRec;
pub use records::standing::stand_in;
pub use spawns::by_table::spawn_by_table;
pub use spawns::refusing::may_spawn;
pub use spawns::spawning::spawn;
pub use tables::holders::Holders;
pub use tables::marking::marked;
pub use tables::table::holder_of;
pub use world_items::Holder;
