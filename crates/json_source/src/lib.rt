//! What JSON data is read from: values, and trees that borrow their text. A tree takes less than
//! half the memory of a value.
#![tactic(auto)]

mod member;
mod number;
mod source;
mod text;
mod tree_source;
mod value_source;

pub use json::{Scratch, Value as Tree};
pub use member::{member_alone, members_alone};
pub use source::Source;
pub use text::tree_of;
