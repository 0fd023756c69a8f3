//! What goes out by itself from the controllers of a server: to whom, where they are, the calls in
//! flight, and what of it waits for a controller, beside those who wait for it.
#![tactic(auto)]

// Not proved: that the house of whoever sent what was taken is heard from: tests show it.

mod hearing;
mod houses;
mod line;
mod own;
mod peers_read;
mod post;
mod sending;

pub use hearing::hear_all;
pub use houses::Houses;
pub use line::Line;
pub use own::{Own, Parcel, Task};
pub use peers_read::{PeersRead, changed_at};
pub use post::{CallInFlight, Post};
pub use sending::send_own;
