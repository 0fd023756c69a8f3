//! What the words of the command line of `jdf_cli` mean, read by `clap`.
#![tactic(auto)]

mod asked;
mod call;
mod call_fault;
mod commands;
mod document_call;
mod help;
mod invocation;
mod kept_call;
mod network_call;
mod reading;
mod serve_limits;

pub use asked::is_asked;
pub use call::Call;
pub use call_fault::CallFault;
pub use document_call::DocumentCall;
pub use invocation::Invocation;
pub use kept_call::KeptCall;
pub use network_call::NetworkCall;
pub use reading::command_of;
pub use serve_limits::ServeLimits;
