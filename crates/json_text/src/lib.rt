//! JSON as text, with no value of it: each type is printed token by token.
#![tactic(auto)]

mod items;
mod lists;
mod marked;
mod members;
mod nodes;
mod parts;
mod pools;
mod printed;
mod text;
mod tickets;
mod words;

pub use marked::no_marks;
pub use members::{print_items, print_member, print_text};
pub use parts::print_part;
pub use pools::print_showing;
pub use printed::PrintForm;
pub use text::written_text;
pub use tickets::print_ticket;
