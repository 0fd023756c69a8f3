//! What is out to each of many destinations: the next of it that may be sent, until it is settled.
//! The moments, in milliseconds, are handed in. They may go back, and all is then waited for that
//! much longer: a clock that never goes back is best.
#![tactic(auto)]

mod courier;
mod flight;
mod laws;
mod line;
mod schedule;
mod turn;

pub use courier::Courier;
pub use flight::Flight;
pub use laws::{
    delays_double, each_comes_nearer, each_takes_its_turn, heard_waits_anew, one_is_given_at_once,
    what_fails_goes_behind, what_is_heard_is_given, what_is_settled_never_comes_back,
};

/// How long a destination waits behind its first failure.
pub const FIRST_DELAY: u64 = 1_000;

/// How long it waits at most.
pub const LAST_DELAY: u64 = 60_000;
