//! A controller over HTTP: one request, one step of the controller beside its keeper, one response.
#![tactic(auto)]

mod answering;
mod cut;
mod cut_reader;
mod cut_writer;
mod edge_fault;
mod exchange;
mod served;
mod serving;

pub use answering::respond;
pub use cut::Cut;
pub use cut_reader::CutReader;
pub use cut_writer::CutWriter;
pub use edge_fault::EdgeFault;
pub use http_message::{Received, read_request, receive, send};
pub use served::Served;
pub use serving::serve_one;
pub use streams::Counted;
