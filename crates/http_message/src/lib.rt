//! HTTP's messages, with no controller in them: heads and bodies that are read, each with the whole
//! input that it stands in, and requests and responses that are written.
#![tactic(auto)]

mod arrival;
mod body;
mod expect;
mod field;
mod head_says;
mod incoming;
mod kind;
pub mod laws;
mod length;
mod lines;
mod lone;
mod look;
mod looking;
mod method;
mod methods;
mod page;
mod pieces;
mod reading;
mod received;
mod response;
mod says;
mod sending;
mod served;
mod standing;
mod start;
mod status;
mod target;
mod wanted;
mod whole;

pub use arrival::Arrival;
pub use body::Body;
pub use incoming::Incoming;
pub use kind::Kind;
pub use length::MAX_BODY_BYTES;
pub use lone::lone_field;
pub use method::Method;
pub use methods::Methods;
pub use page::page_bytes;
pub use reading::{MAX_READS, read_request, receive};
pub use received::Received;
pub use response::{write_missing, write_response};
pub use sending::{is_word, send, send_to};
pub use served::{missing_bytes, refusal_body, refused_bytes, served_bytes};
pub use standing::Standing;
pub use status::status_of;
pub use target::{last_segment, path_of};
pub use wanted::Need;
pub use whole::WholeMessage;
