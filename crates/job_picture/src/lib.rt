//! Pictures of a job for a wall screen, as SVG: who has what, since when, and how far each node is.
#![tactic(auto)]

mod cards;
pub mod laws;
mod marks;
mod master_picture;
mod moments;
mod node_line;
mod progress;
mod rows;
mod style;
mod svg;
mod texts;
mod wall;
mod worker_picture;

pub use master_picture::push_picture;
pub use moments::{moment_text, span_text};
pub use texts::escaped_text;
pub use worker_picture::push_worker_picture;
