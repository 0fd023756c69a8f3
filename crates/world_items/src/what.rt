use crate::{master_order, worker_order};
use ticket_tree::Id;

/// What happens to a controller.
#[derive(Drop)]
pub enum What {
    /// The master is told to do something.
    MasterOrder(master_order::Order),
    /// The worker of a name is.
    WorkerOrder(Id, worker_order::Order),
    /// The message of a number is handed to its receiver. The first that was sent has the number 1.
    Deliver(u64),
    /// The controller of a name stops, and is started again from its stored state.
    Restart(Id),
}
