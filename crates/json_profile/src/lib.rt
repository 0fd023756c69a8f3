//! Tickets, parts and edits as JSON, in our own profile.
#![tactic(auto)]

mod print;
mod read;
mod text;
mod write;

pub use json_reader::{FoundPool, RawPart, RawTicket};
pub use print::{print_part, print_ticket, push_part_text, push_shown_text, push_ticket_text};
pub use read::{edit_of, part_of, ticket_of};
pub use text::{text_of, value_of, value_printed};
pub use write::{edit_value, part_value, shown_value, ticket_value};
