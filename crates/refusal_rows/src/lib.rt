//! The table of refusals, as `docs/REFUSALS.md` has it: of each its number and name, when it comes,
//! what it leaves, and what to do.
#![tactic(auto)]

pub mod laws;
mod numbers;
mod rows;
mod table;

pub use numbers::named_number;
pub use table::text_of;
