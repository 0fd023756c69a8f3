//! The commands on a controller that a cell keeps: to make it, to give it an order, to hand it a
//! message, and to show and list it; and the calls of the program on one that etcd keeps.
#![tactic(auto)]

mod beginning;
mod cell_fault;
mod look;
mod ordering;
mod outputs;
mod run;
mod stepping;
mod taking;

pub use beginning::new_in_cell;
pub use cell_fault::CellFault;
pub use look::{list_in_cell, show_in_cell};
pub use ordering::{OrderStep, order_in_cell};
pub use outputs::output_in_cell;
pub use run::{refuse_place, run_in_cell};
pub use stepping::step_in_cell;
pub use taking::{MessageStep, take_in_cell};
