//! Printing what stands in a node.

pub mod ancestors;
pub mod attributes;
pub mod audits;
pub mod edits;
pub mod links;
pub mod resources;
