//! The bytes of etcd's JSON gateway: what a value under a key is asked by, what an answer tells,
//! and the response that it comes in.
#![tactic(auto)]

// Not proved: that etcd means this by these bytes: it is only tested, by bytes that it was seen to
// take and to give.

mod answer;
mod found;
mod key_version;
mod listed;
mod no_answer;
mod parts;
mod request;
mod response;

pub use answer::swapped_of;
pub use found::held_of;
pub use key_version::KeyVersion;
pub use listed::listed_of;
pub use no_answer::NoAnswer;
pub use request::{
    compaction_request, listing_request, range_request, swap_request, touch_request,
};
pub use response::{Response, response_in};
