ghost use Rattle.std.specs.Prelude.{◌≡◌};
ghost use Rattle.cell_commands.specs.Faults as faults;
ghost use Rattle.cell_commands.specs.declared.cell_fault.CellFault.TheVariants.{Call};
ghost use Rattle.streams.specs.declared.refused.Refused.TheVariants.{Core};
ghost use Rattle.streams.specs.declared.fault.Fault.TheVariants.{Input};
ghost use Rattle.ticket_items.specs.declared.refusal.Refusal.TheVariants.{Memory};

use std::alloc::AllocError;
use streams::{Fault, Refused};
use ticket_items::Refusal;

/// Why a call on the controller that a cell keeps gave up (our own).
#[derive(Clone, Copy, PartialEq, Eq)]
pub enum CellFault {
    /// As one on a file does.
    Call(Fault),
    /// Nothing was read: no answer came, or nothing is kept.
    Unread,
    /// A new controller is to be kept where one is already.
    Taken,
    /// It isn't known whether the step is saved: no answer came.
    Unanswered,
    /// Nothing is saved: another came first, as often as the step was made.
    Overtaken,
    /// Nothing is saved: the state has too many bytes.
    TooLarge,
}

impl CellFault {
    /// The fault that it is told as.
    pub fn fault(&self) -> Fault
        // Proved: Each fault of a call on a cell has the line and the status of one on a file.
        ensures { result ≡ faults.fault_in self.now }
    {
        match self {
            CellFault::Call(fault) => *fault,
            CellFault::Unread => Fault::Device(Refused::LoadFailed),
            CellFault::Taken | CellFault::Unanswered | CellFault::Overtaken | CellFault::TooLarge =>
                Fault::Device(Refused::SaveFailed),
        }
    }
}

impl From<Fault> for CellFault {
    ghost from_gives = { λ fault e. e ≡ Call fault };

    fn from(fault: Fault) -> CellFault {
        CellFault::Call(fault)
    }
}

impl From<AllocError> for CellFault {
    ghost from_gives = { λ _ e. e ≡ Call (Input (Core Memory)) };

    fn from(_error: AllocError) -> CellFault {
        CellFault::Call(Fault::Input(Refused::Core(Refusal::Memory)))
    }
}
