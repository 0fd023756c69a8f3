//! The clients that send messages to a server: who they are, what is told of each in the log, and
//! how each gets its response.
#![tactic(auto)]

// Not proved: what a client sent, or is answered: neither what a socket gives nor what it takes.
// Not proved: that what is kept under a number is the connection from which the request came: tests
// show it.

mod accepting;
mod clients;
mod entry;
mod giving_back;
mod note;
mod telling;

pub use accepting::LISTENER;
pub use clients::{BUFFER_SIZE, Clients};
pub use entry::Entry;
pub use giving_back::gone_and_there;
pub use note::Note;
