//! Scripts as JSON, in our own profile: a shop and what happens in it; and the text of what came of
//! an event.
#![tactic(auto)]

mod answer;
mod event;
mod read;
mod script;
mod stop_word;
mod what;

pub use answer::answer_text;
pub use read::{running_script_of, script_of};
pub use script::Script;
