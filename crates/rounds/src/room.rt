ghost use Rattle.std.specs.Prelude.{IfOk};
ghost use Rattle.rounds.specs.Line.{HasRoom};

use crate::waiting::WaitingClient;
use std::alloc::{AllocError, Global};
use stored_state::Coming;

/// Room for what comes of a line, so that no client is lost for want of memory once it is stepped:
/// among it for what each is told.
#[derive(Drop)]
pub struct Room<S, A> {
    pub answered: Vec<A>,
    pub waiting: Vec<WaitingClient<S>>,
    pub comings: Vec<Coming>,
}

impl<S: Drop, A: Drop> Room<S, A> {
    /// Room for so many clients.
    pub fn new(alloc: Global, clients: usize) -> Result<Room<S, A>, AllocError>
        ensures { IfOk result (HasRoom clients) }
    {
        Ok(Room {
            answered: Vec::with_capacity(alloc, clients)?,
            waiting: Vec::with_capacity(alloc, clients)?,
            comings: Vec::with_capacity(alloc, clients)?,
        })
    }
}
