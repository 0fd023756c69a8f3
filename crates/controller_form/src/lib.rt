//! Controllers as JSON, in our own profile: the orders that they are given, what they begin with,
//! the states that are stored of them, and the ticket that a master shows.
#![tactic(auto)]

mod openings;
mod orders;
mod shown_master;
mod states;

pub use openings::{Opening, RawShop, Shop, opening_of};
pub use orders::{find_master_order, find_worker_order, master_order_of, worker_order_of};
pub use shown_master::push_shown;
pub use states::StateForm;
