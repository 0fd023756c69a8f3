//! A cell that is the value under a key of etcd, over the JSON gateway of one of its nodes.
#![tactic(auto)]

// Not proved: that a value in etcd is a cell that is honest: no contract can say what is held
// behind a socket, and that etcd compares and swaps, one call at a time, is a premise.

mod asking;
mod compacting;
mod connector;
mod etcd_cell;
mod exchange;
mod gateway;
mod listing;

pub use asking::{read_over, swap_over, touch_over};
pub use compacting::compact;
pub use connector::{Connector, SocketConnector};
pub use etcd_cell::{EtcdCell, MAX_VALUE_BYTES};
pub use gateway::Gateway;
pub use listing::{keys_in, list_over};
