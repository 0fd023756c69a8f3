//! A day of command lines at a shop: orders, messages and looks, each at a time, over keepers whose
//! saves may fail or be cut off. What they write, and what the shop is then, are those of one
//! ticket with one table of holders.
#![tactic(auto)]

mod asking;
mod doing;
pub mod laws;
mod line;
mod outcome;
mod running;
mod sending;
mod showing;
mod stepping;

pub use line::{Call, Line};
pub use outcome::Outcome;
pub use running::run_day;
