//! The command `order` with `--send`: an order, what it sends to a controller that serves over
//! HTTP, and what that answers.

mod run;
mod send_order;

pub use run::run_send_order;
pub use send_order::SendOrder;
