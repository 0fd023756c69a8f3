use master_core::Master;
use worker_core::Worker;

/// A controller in its beginning.
#[derive(Drop)]
pub enum Opening {
    /// A master of whose ticket nothing is out.
    Master(Master),
    /// A worker that has taken nothing.
    Worker(Worker),
}
