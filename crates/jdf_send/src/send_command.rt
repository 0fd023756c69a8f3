//! The command `send`: one message to a controller that serves over HTTP, and its answer.

mod connecting;
mod exchanging;
mod run;
mod send_to;

pub(crate) use exchanging::post;
pub use run::run_send;
pub(crate) use run::{DONE, tell_no_peer, tell_no_url, tell_status};
pub(crate) use send_to::{SendTo, no_place};
