ghost use Rattle.std.specs.Prelude.{◌≡◌};
ghost use Rattle.keepers.specs.declared.keep_fault.KeepFault.TheVariants.{Failed, Memory};

use std::alloc::{AllocError, AllocFailed};
use std::io;
use thiserror::Error;

/// Why a call of a keeper gave up (our own).
#[derive(Clone, Copy, Debug, PartialEq, Eq, Error)]
pub enum KeepFault {
    /// The value could not be read or written.
    #[error("the stored state could not be read or written")]
    Failed,
    /// Memory ran out.
    #[error("out of memory")]
    Memory,
}

impl From<AllocError> for KeepFault {
    ghost from_gives = { λ _ fault. fault ≡ Memory };

    fn from(_error: AllocError) -> KeepFault {
        KeepFault::Memory
    }
}

impl<T: Drop> From<AllocFailed<T>> for KeepFault {
    ghost from_gives = { λ _ fault. fault ≡ Memory };

    fn from(_error: AllocFailed<T>) -> KeepFault {
        KeepFault::Memory
    }
}

impl From<io::Error> for KeepFault {
    ghost from_gives = { λ _ fault. fault ≡ Failed };

    fn from(_error: io::Error) -> KeepFault {
        KeepFault::Failed
    }
}
