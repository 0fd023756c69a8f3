//! The steps of a server's controllers, each in its file or in etcd: of those who wait for one, and
//! of what goes out from it by itself, with their lines in the journal; and to which one a message
//! leads.
#![tactic(auto)]

// Not proved: what a file or etcd gives or takes: neither what was held there, nor what is.

mod engine;
mod etcd_folder;
mod etcd_steps;
mod journaling;
mod mark;
mod order_steps;
mod route;
mod stepping;
mod watched;

pub use engine::Engine;
pub use etcd_folder::{begin_at, controllers_in, is_missing_at, lists};
pub use etcd_steps::{answers, check_path, look_at_path, step_at, step_own_at};
pub use mark::Mark;
pub use order_steps::{OrdersResult, order_at, refused_orders};
pub use route::{Route, named_route, route_of};
pub use stepping::{Look, OwnStepResult, StepsResult};
pub use watched::{ControllerView, ControllerViews, MarkedFile, Seat};
