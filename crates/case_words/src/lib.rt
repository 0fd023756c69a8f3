//! The cases of `cases`, and what comes of those whose first word the program doesn't have: files
//! as they are, and calls that it never makes by itself. `other.rt`, `calls.rt` and `exchanges.rt`
//! list these words.
#![tactic(auto)]

mod calls;
mod case;
mod changers;
mod escapes;
mod exchanges;
mod files;
mod forms;
mod masters;
mod other;
mod places;
mod states;
mod trees;
mod worlds;

pub use case::Case;
pub use exchanges::exchange_answer;
pub use other::other_answer;
