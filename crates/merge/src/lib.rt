//! Merging: what another controller made of its part of a ticket is put back (JDF 1.5, 4.4). And
//! withdrawing a spawn of which nothing was made.
#![tactic(auto)]

mod alike;
mod copies;
mod in_order;
pub mod laws;
mod merging;
mod parent;
mod replacing;
mod shape;
mod telling;
mod withdrawing;

pub use merging::{merge, merge_fitting};
pub use shape::fits;
pub use withdrawing::withdraw;
