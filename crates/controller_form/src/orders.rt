//! Orders as JSON, in our own profile: what a master and what a worker is told to do.

pub(crate) mod end_named;
mod known_spawn;
mod master_order;
mod worker_order;

pub use master_order::{find_master_order, master_order_of};
pub use worker_order::{find_worker_order, worker_order_of};
