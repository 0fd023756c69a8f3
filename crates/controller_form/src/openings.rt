//! Shops as JSON, in our own profile: a master with its workers' names and its ticket; and what a
//! controller is begun of, a master or a worker.

mod opening;
mod opening_read;
mod raw_shop;
mod shop;

pub use opening::Opening;
pub use opening_read::opening_of;
pub use raw_shop::RawShop;
pub use shop::Shop;
