//! What the controllers of a server have out, and what of it is to be sent next. The moments, in
//! milliseconds, are handed in.
#![tactic(auto)]

mod deliveries;
mod flight;
mod giving;
mod laws;
mod looking;
mod outbox;
mod outboxes;
mod progress;
mod routes;
mod thing;

pub use deliveries::Deliveries;
pub use flight::Flight;
pub use laws::{none_is_in_flight_twice, what_is_given_waits, what_waits_is_in_its_line};
pub use progress::Progress;
pub use thing::Thing;
