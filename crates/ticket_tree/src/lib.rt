//! Job tickets and parts of them: trees of nodes with their resources, links and audits. What
//! stands in a ticket is handed on.
#![tactic(auto)]

mod at;
pub mod laws;
mod linked;
mod part;
mod soundness;
mod ticket;

pub use at::At;
pub use linked::is_linked;
pub use part::Part;
pub use ticket::Ticket;
pub use ticket_items::{
    Ancestor, Ancestors, Attrs, Audit, Audits, Duplicate, Edit, Id, Ids, Items, Link, Links, Marks,
    Name, NodeRow, Refusal, ResMark, ResMarks, Resource, Resources, SpawnId, SpawnIds, SpawnStatus,
    Text, Usage,
};
pub use ticket_rows::Rows;
