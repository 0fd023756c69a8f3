use crate::master::Master;
use controller::{Controller, Done, Message, Outcome};
use std::alloc::{AllocError, Global};
use ticket_tree::{Id, Refusal};
use world_items::master_order::Order;

impl Controller for Master {
    ghost use Rattle.master_core.specs.Messages as messages;
    ghost use Rattle.master_core.specs.Orders as orders;

    type Order = Order;

    ghost own_name = { λ m. m.name };

    ghost order_step = { orders.order_step };

    ghost take_step = { messages.take_step };

    fn name(&self) -> &Id {
        Master::name(self)
    }

    fn order(&mut self, alloc: Global, order: Order, at: u64) -> Result<Done, Refusal> {
        Master::order(self, alloc, order, at)
    }

    fn take(&mut self, alloc: Global, message: Message, at: u64) -> Result<Outcome, AllocError> {
        Master::take(self, alloc, message, at)
    }
}
