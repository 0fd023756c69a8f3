//! A round of a server: the requests that wait for one controller and their responses, and the
//! controllers that are kept in memory.
#![tactic(auto)]

mod anew;
mod answered;
mod errand;
mod line;
mod orders;
mod parted;
mod receipt;
mod recipient;
mod room;
mod round_keep;
mod saved_states;
mod waiting;

pub use anew::take_anew;
pub use answered::{AnsweredClient, refuse};
pub use errand::Errand;
pub use line::{answer_all, refuse_errands};
pub use orders::AnsweredOperator;
pub use parted::{Parted, late_and_waiting};
pub use receipt::Receipt;
pub use recipient::Recipient;
pub use room::Room;
pub use round_keep::{Given, RoundKeep};
pub use saved_states::SavedStates;
pub use waiting::WaitingClient;
