//! Messages between controllers: a part that goes out, one that comes back, one that is to be given
//! up, and the answers to each, as JMF in JSON.
#![tactic(auto)]

mod commands;
mod decoding;
mod encoding;
mod family;
mod ids;
mod items;
mod jmf;
pub mod laws;
mod refused;
mod responses;

pub use controller::{Body, Command, Done, Message, Outcome, QueueStatus, Reply};
pub use decoding::decode;
pub use encoding::encode;
pub use ids::id_of;
pub use refused::refusal_told;
