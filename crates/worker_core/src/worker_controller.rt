use crate::worker::Worker;
use controller::{Controller, Done, Message, Outcome};
use std::alloc::{AllocError, Global};
use ticket_tree::{Id, Refusal};
use world_items::worker_order::Order;

impl Controller for Worker {
    ghost use Rattle.worker_core.specs.Messages as messages;
    ghost use Rattle.worker_core.specs.Orders as orders;

    type Order = Order;

    ghost own_name = { λ w. w.name };

    ghost order_step = { orders.order_step };

    ghost take_step = { messages.take_step };

    fn name(&self) -> &Id {
        Worker::name(self)
    }

    fn order(&mut self, alloc: Global, order: Order, at: u64) -> Result<Done, Refusal> {
        Worker::order(self, alloc, order, at)
    }

    fn take(&mut self, alloc: Global, message: Message, at: u64) -> Result<Outcome, AllocError> {
        Worker::take(self, alloc, message, at)
    }
}
