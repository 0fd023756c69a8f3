//! Cells: values with revisions that several processes share, and what keeps a state in one.
#![tactic(auto)]

// Not proved: that a cell is honest, of which all is said, as the one in memory that follows a
// script is: of an engine behind a socket no contract can say it, and that it compares and swaps,
// one call at a time, is a premise.

mod act;
mod anew;
mod call;
mod cell;
mod cell_keep;
mod course;
mod deed;
mod delayed;
mod holder;
mod runs;
mod scripted_cell;
mod sharing;
mod step;
mod swapped;
mod versioned;

pub use act::Act;
pub use anew::{TRIES, step_anew};
pub use call::Call;
pub use cell::Cell;
pub use cell_keep::CellKeep;
pub use deed::Deed;
pub use holder::Holder;
pub use runs::run;
pub use scripted_cell::ScriptedCell;
pub use step::Step;
pub use swapped::SwapResult;
pub use versioned::VersionedValue;
