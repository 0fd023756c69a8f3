//! What all controllers share (JMF; JDF 1.5, 5): the messages between them, a part that goes out,
//! one that comes back, one that is to be given up and the answer to each; and their steps.
#![tactic(auto)]

pub mod answering;
mod body;
mod command;
mod command_row;
mod controller;
mod done;
mod message;
mod outcome;
mod queue_status;
mod taken;

pub use body::Body;
pub use command::Command;
pub use command_row::CommandRow;
pub use controller::Controller;
pub use done::Done;
pub use message::Message;
pub use outcome::Outcome;
pub use queue_status::QueueStatus;
pub use taken::Taken;
pub use world_items::Reply;
