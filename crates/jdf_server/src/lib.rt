//! The server of controllers over HTTP, from one round to the next: who has a turn, who looks at
//! its page and who gives orders, the lines of those who wait for a controller, and what goes out
//! by itself.
#![tactic(auto)]

// Not proved: that each client has its turn and each line its step, and that what goes out by
// itself is sent and settled: tests show it.

mod building;
mod calling;
mod health;
mod lines;
mod ordering;
mod orders;
mod page;
mod page_response;
mod posting;
mod rounding;
mod server;
mod service;
mod turns;
mod watching;

pub use server::Server;
pub use service::Service;
