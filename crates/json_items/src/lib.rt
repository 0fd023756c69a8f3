//! What a type is in JSON: its form, which says how it is read and what is written of it. Reading
//! of lists, members and wholes is proved here once, over any of these types.
#![tactic(auto)]

mod edit_form;
mod form;
mod lists;
mod members;
mod nodes;
mod raw;
mod resources;
mod texts;
mod words;

pub use form::{Form, FormIn, Validation};
pub use lists::items_form::{find_list_in, push_found};
pub use members::found_members::{
    find_four, find_pool, find_three, find_two, find_under, read_whole_in, zip,
};
pub use members::member::{check_members, number_under, text_under};
pub use raw::Raw;
pub use resources::attrs_form::find_attrs;
pub use resources::shown_form::Showing;
pub use texts::any_text::AnyText;
pub use texts::id_form::id_in;
