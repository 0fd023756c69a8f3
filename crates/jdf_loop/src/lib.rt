//! The command `loop`: what happens in a shop, with each message handed over by an exchange over
//! HTTP, from this program to itself.
#![tactic(auto)]

// Not proved: what bytes a file or a socket gives or takes: neither what a file held or holds, nor
// what a client sent, or is answered.

mod command;
mod event_line;
mod exchanges;
mod loopback;
mod losses;
mod pushing;
mod shop;
mod written;

pub use command::run_loop;
