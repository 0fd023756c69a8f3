ghost use Rattle.std.specs.Prelude.{◌≡◌};
ghost use Rattle.jdf_words.specs.Calls.{TellsOf, fault_text};
ghost use Rattle.jdf_words.specs.declared.call_fault.CallFault.TheVariants.{Memory};

use clap::error::ErrorKind;
use std::alloc::AllocError;
use std::{error, fmt};

/// Why words call for nothing.
#[derive(Debug, Drop)]
pub enum CallFault {
    /// The words are wrong or ask for help, which `clap`'s text says. Its kind is never
    /// `OutOfMemory`.
    Clap(clap::Error),
    /// Memory ran out.
    Memory,
}

impl From<AllocError> for CallFault {
    ghost from_gives = { λ _ fault. fault ≡ Memory };

    fn from(_error: AllocError) -> CallFault {
        CallFault::Memory
    }
}

impl From<clap::Error> for CallFault {
    ghost from_gives = { TellsOf };

    fn from(error: clap::Error) -> CallFault {
        match error.kind() {
            ErrorKind::OutOfMemory => CallFault::Memory,
            _ => CallFault::Clap(error),
        }
    }
}

/// Whole lines, as `clap`'s own texts are.
impl fmt::Display for CallFault {
    ghost output = { fault_text };

    fn fmt<W: fmt::Write>(&self, f: &mut fmt::Formatter<W>) -> fmt::Result {
        match self {
            CallFault::Clap(error) => error.fmt(f),
            CallFault::Memory => f.write_str("Refused 90 Memory\n"),
        }
    }
}

impl error::Error for CallFault {}
