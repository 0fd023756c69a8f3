ghost use Rattle.std.specs.Prelude.{◌≡◌};
ghost use Rattle.streams.specs.declared.refused.Refused.TheVariants.{Core};
ghost use Rattle.streams.specs.Fault as faults;
ghost use Rattle.streams.specs.declared.fault.Fault.TheVariants.{Input};
ghost use Rattle.ticket_items.specs.declared.refusal.Refusal.TheVariants.{Memory};

use crate::refused::Refused;
use std::alloc::{AllocError, AllocFailed};
use ticket_items::Refusal;

/// Why the program gave up.
#[derive(Clone, Copy, PartialEq, Eq)]
pub enum Fault {
    /// What was given is refused or too large.
    Input(Refused),
    /// A store, a standard stream or the network failed, or what a store holds is refused.
    Device(Refused),
}

impl Fault {
    /// The exit status of the program that gave up: 1 where memory ran out, else 3 for what was
    /// given to it, and 4 for what it stands on.
    pub fn status(self) -> u8
        ensures { result ≡ faults.fault_status self }
    {
        match self {
            Fault::Input(Refused::Core(Refusal::Memory))
            | Fault::Device(Refused::Core(Refusal::Memory)) => 1,
            Fault::Input(_) => 3,
            Fault::Device(_) => 4,
        }
    }

    /// The line that tells the fault: its number and its name.
    pub fn line(&self) -> &'static str
        // Proved: Each fault has its line and status.
        // By `Fault::status`, `Refused::number`, `Refused::name`, `Refused::line`; `Refused::row`:
        // `number`, `name`, `line`.
        ensures { result.now ≡ faults.fault_line self.now }
    {
        match self {
            Fault::Input(refused) | Fault::Device(refused) => refused.line(),
        }
    }
}

impl From<AllocError> for Fault {
    ghost from_gives = { λ _ f. f ≡ Input (Core Memory) };

    fn from(_error: AllocError) -> Fault {
        Fault::Input(Refused::Core(Refusal::Memory))
    }
}

impl<T: Drop> From<AllocFailed<T>> for Fault {
    ghost from_gives = { λ _ f. f ≡ Input (Core Memory) };

    fn from(_error: AllocFailed<T>) -> Fault {
        Fault::Input(Refused::Core(Refusal::Memory))
    }
}

impl From<Refusal> for Fault {
    ghost from_gives = { λ r f. f ≡ Input (Core r) };

    fn from(refusal: Refusal) -> Fault {
        Fault::Input(Refused::Core(refusal))
    }
}
