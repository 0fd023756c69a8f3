//! Where others come to a server: its listeners, those who look at its page or give it orders, who
//! are held apart from its clients, the moments of a turn, and the log.
#![tactic(auto)]

mod guests;
mod listener;
mod log;
mod message_listener;
mod moments;
mod order_listener;
mod page_listener;
mod wire;

pub use guests::{Guest, GuestRequest, Guests};
pub use listener::{GuestListener, Listener};
pub use log::Log;
pub use message_listener::MessageListener;
pub use moments::Moments;
pub use order_listener::OrderListener;
pub use page_listener::PageListener;
pub use wire::Wire;
