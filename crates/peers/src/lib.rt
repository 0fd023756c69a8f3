//! Connections as machines. One to a client, by itself and beside its stream: its request comes, it
//! waits for a response, that is written, and it ends. And a call of another server: its request is
//! written, and its response comes. The stream and the moments, in milliseconds, are handed in.
#![tactic(auto)]

mod asked;
mod call;
mod call_limits;
mod call_turn;
mod client;
mod event;
mod exchange;
mod limits;
mod peer;
mod phase;
mod progress;
mod turn;
mod writing;

pub use asked::OwedClient;
pub use call::Call;
pub use call_limits::CallLimits;
pub use call_turn::CallTurn;
pub use client::Client;
pub use event::Event;
pub use limits::Limits;
pub use peer::Peer;
pub use phase::Phase;
pub use turn::Turn;
