//! What stands in a ticket: nodes with their resources, links and audits, their ids, names and
//! texts, and the edits of a ticket.
#![tactic(auto)]

mod ancestor;
mod attrs;
mod attrs_iter;
mod audit;
mod chars;
mod duplicate;
mod edit;
mod few_attrs;
mod id;
mod items;
mod link;
mod marks;
mod name;
mod node_row;
mod pool;
mod refusal;
pub mod refusal_row;
mod res_mark;
mod resource;
mod rules;
mod spawn_id;
mod spawn_status;
mod text;
mod usage;
mod word;

pub use ancestor::Ancestor;
pub use attrs::Attrs;
pub use attrs_iter::AttrsIter;
pub use audit::Audit;
pub use duplicate::{Duplicate, copies};
pub use edit::Edit;
pub use id::{Id, IdKind, is_among};
pub use items::{Ancestors, Audits, Ids, Items, Links, ResMarks, Resources, SpawnIds};
pub use link::Link;
pub use marks::Marks;
pub use name::{Name, NameKind};
pub use node_row::NodeRow;
pub use refusal::Refusal;
pub use refusal_row::RefusalRow;
pub use res_mark::ResMark;
pub use resource::Resource;
pub use rules::{is_name, is_text};
pub use spawn_id::SpawnId;
pub use spawn_status::SpawnStatus;
pub use text::Text;
pub use usage::Usage;
pub use word::Word;
