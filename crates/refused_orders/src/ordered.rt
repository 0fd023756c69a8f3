//! Orders to controllers, from texts.

use controller_form::{master_order_of, worker_order_of};
use json_source::{Scratch, tree_of};
use master_core::Master;
use std::alloc::Global;
use stored_state::StoredController;
use ticket_items::Refusal;
use worker_core::Worker;

/// A controller of which orders are read.
pub trait Ordered: StoredController {
    /// The order that a text is.
    fn order_in(alloc: Global, text: &[u8]) -> Result<Self::Order, Refusal>;
}

impl Ordered for Master {
    fn order_in(alloc: Global, text: &[u8]) -> Result<master_core::Order, Refusal> {
        let mut scratch = Scratch::new(alloc);
        master_order_of(alloc, &tree_of(alloc, text, &mut scratch)?)
    }
}

impl Ordered for Worker {
    fn order_in(alloc: Global, text: &[u8]) -> Result<worker_core::Order, Refusal> {
        let mut scratch = Scratch::new(alloc);
        worker_order_of(alloc, &tree_of(alloc, text, &mut scratch)?)
    }
}
