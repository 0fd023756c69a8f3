//! What a shop is told and what comes of it: orders, events, where a controller stops, replies,
//! answers, and who holds what of a ticket.
#![tactic(auto)]

mod answer;
mod end;
mod event;
mod holder;
pub mod master_order;
mod reply;
mod stop;
mod what;
mod word;
pub mod worker_order;

pub use answer::Answer;
pub use end::End;
pub use event::Event;
pub use holder::Holder;
pub use reply::Reply;
pub use stop::Stop;
pub use what::What;
pub use word::Word;
