use crate::stage::Stage;
use ticket_tree::{Duplicate, Part, SpawnId};

/// A part that a worker took, or a spawn that it declined. It is kept for good, but for the part
/// itself once that was given back and has come.
#[derive(Clone, Drop)]
pub struct Entry {
    /// The spawn.
    pub spawn_id: SpawnId,
    pub phase: Stage,
    /// There is none just where the entry is closed or declined.
    pub part: Option<Part>,
    /// When it was taken or declined or, from the end on, when the work ended; in seconds since
    /// 1970.
    pub at: u64,
}

impl Entry {
    ghost use Rattle.std.specs.Prelude.{◌≡◌};
    ghost use Rattle.std.specs.Option.{option_copied};
    ghost use Rattle.ticket_rows.specs.Copies.{with_copies};
    ghost use Rattle.ticket_rows.specs.Ticket.{IsValid};
    ghost use Rattle.worker_core.specs.Worker as worker;

    /// The entry of a part that is taken at a time.
    pub(crate) fn new(part: Part, at: u64) -> Entry
        ensures entry { result ≡ worker.new_entry part at }
        ensures valid { IsValid (with_copies part.rows part.rw part.ro) }
    {
        Entry {
            spawn_id: part.spawn_id(),
            phase: Stage::Open,
            part: Some(part),
            at,
        }
    }

    /// The entry of a spawn that is declined at a time.
    pub(crate) fn new_declined(spawn_id: SpawnId, at: u64) -> Entry
        ensures { result ≡ worker.declined_entry spawn_id at }
    {
        Entry {
            spawn_id,
            phase: Stage::Declined,
            part: None,
            at,
        }
    }

    /// Its part, while that may be changed.
    pub(crate) fn open_part(&self) -> Option<&Part>
        ensures { option_copied result ≡ worker.open_part self.now }
    {
        if self.phase.is_open() {
            self.part.as_ref()
        } else {
            None
        }
    }

    /// Gives up its part, if the work on that has ended: it was given back and has come.
    pub(crate) fn close(&mut self)
        ensures { self.new ≡ worker.closed_entry self.old }
    {
        if let Stage::Done(end) = self.phase {
            self.phase = Stage::Closed(end);
            drop(self.part.take());
        }
    }
}

impl Duplicate for Entry {
    ghost use Rattle.std.proofs.Common.{rules};

    ghost equal = { Prim.search rules };
}
