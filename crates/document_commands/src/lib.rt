//! The commands that read one document and keep nothing, over readers and writers: `edit`, `check`
//! and `explain`; and how a fault is told with what it comes from.
#![tactic(auto)]

mod caused;
mod check_command;
mod edit_command;
mod explain_command;
mod told;

pub use caused::{CausedFault, give_up_caused};
pub use check_command::run_check;
pub use edit_command::run_edit;
pub use explain_command::run_explain;
