//! The rows of a ticket, which are its nodes in preorder: whether they are one, what is found among
//! them, and the edits of them.
#![tactic(auto)]

mod boxes;
pub mod distinct;
mod edit;
mod index;
mod indexed_rows;
mod places;
pub mod pools;
pub mod resolved;
pub mod rows;
mod rows_iter;
mod runs;
mod spot;

pub use edit::{edits, one_row, part_edits};
pub use indexed_rows::IndexedRows;
pub use rows_iter::Rows;
