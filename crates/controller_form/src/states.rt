//! The state of a master or a worker as JSON, in our own profile: how it is stored, and how it is
//! read again.

mod entry_text;
mod format;
mod master_state;
mod phase_word;
mod record_text;
mod stage_word;
mod state_form;
mod stored_entries;
mod stored_entry;
mod stored_record;
mod worker_state;

pub use state_form::StateForm;
