ghost use Rattle.std.specs.Prelude.{◌≡◌};
ghost use Rattle.etcd_wire.specs.declared.no_answer.NoAnswer.TheVariants.{Memory};

use std::alloc::AllocError;
use thiserror::Error;

/// Why an answer tells nothing (our own).
#[derive(Clone, Copy, Debug, PartialEq, Eq, Error)]
pub enum NoAnswer {
    /// It is none that tells anything.
    #[error("no answer that tells anything")]
    Unknown,
    /// Memory ran out.
    #[error("out of memory")]
    Memory,
}

impl From<AllocError> for NoAnswer {
    ghost from_gives = { λ _ fault. fault ≡ Memory };

    fn from(_error: AllocError) -> NoAnswer {
        NoAnswer::Memory
    }
}
