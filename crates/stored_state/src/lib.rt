//! Controllers whose states are kept: each step is saved before anything of it is given out.
#![tactic(auto)]

mod addressee;
mod any_controller;
mod any_kept;
mod cause;
mod coming;
mod kept;
mod kept_seat;
mod kind;
pub mod laws;
mod memory_seat;
mod order_bytes;
mod order_outcome;
mod orders;
mod outgoing;
mod resting;
mod saved;
mod seat;
mod snapshot;
mod stored;
mod storing;
mod taken_bytes;
mod taking_all;

pub use addressee::Addressee;
pub use any_controller::AnyController;
pub use any_kept::{AnyKept, open_any};
pub use cause::StepInput;
pub use coming::Coming;
pub use controller::Controller;
pub use kept::Kept;
pub use kept_seat::KeptSeat;
pub use kind::{Kind, kind_of};
pub use memory_seat::MemorySeat;
pub use order_bytes::OrderBytes;
pub use saved::SavedState;
pub use seat::Seat;
pub use snapshot::Snapshot;
pub use stored::StoredController;
pub use streams::Refused;
pub use taken_bytes::TakenBytes;
pub use taking_all::take_all;
