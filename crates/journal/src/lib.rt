//! A journal: a line for each step of a controller that was saved, appended behind the save.
#![tactic(auto)]

mod clock;
mod file_journal;
mod journal;
mod line;
mod memory_journal;
mod user;
mod what;
mod words;

pub use clock::seconds;
pub use file_journal::FileJournal;
pub use journal::Journal;
pub use line::step_line;
pub use memory_journal::MemoryJournal;
pub use user::user_text;
pub use what::{message_word, order_word};
pub use words::system_words;
