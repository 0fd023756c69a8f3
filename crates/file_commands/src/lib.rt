//! The commands that keep a controller's state in a file, over readers and keepers: to make it, to
//! give it an order, to hand it a message, to show it, and to list its work, or that of a folder;
//! and the calls of the program on one in a file.
#![tactic(auto)]

mod answers;
mod asked;
mod beginning;
mod journaling;
mod listed;
mod listing;
mod lists;
mod moment;
mod noted;
mod notes;
mod opening;
mod ordering;
mod pictured;
mod run;
mod shown;
mod step;
mod taking;

pub use answers::{answer_output, refused_by};
pub use asked::ListRequest;
pub use beginning::begin;
pub use journaling::{journal_message, journal_order};
pub use listing::kept_list;
pub use moment::moment_of;
pub use noted::{OutputWithNotes, finish_noting};
pub use notes::notes_of_order;
pub use opening::open_keep;
pub use ordering::{OrderOutput, order_in_file, order_noted, typist};
pub use run::run_file;
pub use shown::{kept_shown, moment_of_picture, worker_text};
pub use step::{fault_of, step_output};
pub use taking::take_in_file;
