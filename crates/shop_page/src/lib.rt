//! What the page of a shop tells: what is out with whom, what waits too long, what was refused; as
//! HTML for people, as JSON, and as the text that Prometheus reads.
#![tactic(auto)]

mod cells;
mod counts;
mod delivery;
mod label;
mod metrics;
mod of_controllers;
mod open_list;
mod open_work;
mod overview;
mod picked;
mod picture_page;
mod rows;
mod shop;
mod style;
mod tables;
mod worker_entries;

pub use counts::{Counts, STATUSES};
pub use delivery::Delivery;
pub use metrics::{Gauges, metrics_text};
pub use of_controllers::OfController;
pub use open_list::list_json;
pub use open_work::OpenWork;
pub use overview::shop_page;
pub use picture_page::controller_page;
pub use shop::Shop;
pub use worker_entries::worker_json;
