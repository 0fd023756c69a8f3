//! Where a document isn't of the profile: its places, found by the rules of the schema and by what
//! no schema can say. What a document is refused for is the readers' to say; here is only looked
//! for where that is.
#![tactic(auto)]

mod document;
mod kind;
mod lines;
mod located;
mod place;
mod profile;
mod quoted;
mod rule;
mod said;
mod shapes;
mod shops;
mod states;
mod text;
mod walk;
mod weight;
mod wholes;

pub use document::places_of;
pub use kind::Kind;
pub use place::Place;
