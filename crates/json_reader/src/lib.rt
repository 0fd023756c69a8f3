//! Tickets and parts of them: what is found of them in JSON data, in one walk over their nodes.
#![tactic(auto)]

mod found_nodes;
mod found_pool;
mod found_row;
mod part_groups;
mod raw_part;
mod raw_ticket;
mod taken_nodes;

pub use found_pool::FoundPool;
pub use raw_part::RawPart;
pub use raw_ticket::RawTicket;
