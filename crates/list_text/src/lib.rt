//! Lists of what is with another controller, or came from one, as text: a line for each spawn of a
//! master or each entry of a worker, with tabs between or as JSON.
#![tactic(auto)]

mod json_line;
mod lists;
mod sizes;
mod tab_line;

pub use json_line::print_work;
pub use lists::{push_master_list, push_worker_list};
pub use tab_line::HEAD_LINE;
