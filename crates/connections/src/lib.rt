//! Connections that are cut off at their limit.
#![tactic(auto)]

mod connecting;
mod until;

pub use connecting::connect_until;
pub use until::Until;
