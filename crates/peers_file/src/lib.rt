//! The table of peers: to which URL the messages for a name are posted.
#![tactic(auto)]

mod compare;
mod destination;
mod in_file;
mod pattern;
mod read;
mod rows;
mod table;

pub use destination::Destination;
pub use in_file::{NO_PEERS, peers_in_file};
pub use read::peers_of;
pub use table::PeerTable;
