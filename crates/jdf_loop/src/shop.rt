//! A shop in the beginning, each controller beside a keeper of its state in memory.

ghost use Rattle.std.specs.Prelude.{◌≡◌, IfOk};
ghost use Rattle.world.specs.State as state;

use keepers::MemoryKeep;
use master_core::Master;
use std::alloc::Global;
use stored_state::KeptSeat;
use streams::Refused;
use ticket_tree::{Id, Ids, Ticket};
use worker_core::Worker;
use world::{Keepers, Seats, begin};

/// The seats of a master and of its workers, each beside a keeper in memory.
pub type Shop = Seats<KeptSeat<Master, MemoryKeep>, KeptSeat<Worker, MemoryKeep>>;

/// What gives each controller a keeper in memory.
#[derive(Drop)]
struct InMemory;

impl Keepers<MemoryKeep> for InMemory {
    fn keeper_of(&mut self, alloc: Global, _name: &Id) -> Result<MemoryKeep, Refused> {
        Ok(MemoryKeep::new(Vec::new(alloc)))
    }
}

/// A master of this name with this ticket, of which nothing is out, and workers of these names.
/// Nothing was sent. Refuses `SameName` where two of the names are equal, and else `Memory`.
pub fn new_shop(alloc: Global, name: Id, workers: Ids, ticket: Ticket) -> Result<Shop, Refused>
    ensures is { IfOk result (λ shop. shop ≡ state.opening name workers ticket) }
    ensures kept { IfOk result state.IsConsistent }
{
    begin(alloc, &mut InMemory, name, workers, ticket)
}
