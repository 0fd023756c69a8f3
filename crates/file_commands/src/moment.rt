//! The moment of a call.

ghost use Rattle.std.specs.Prelude.{◌≡◌, IfErr, IfOk, None};
ghost use Rattle.file_commands.specs.Commands.{IsMoment};
ghost use Rattle.streams.specs.declared.refused.Refused.TheVariants.{ReadFailed};
ghost use Rattle.streams.specs.declared.fault.Fault.TheVariants.{Device};

use journal::seconds;
use std::time::Clock;
use streams::{Fault, Refused};

/// The moment that is named or, where none is, that of the clock, in seconds since 1970. Refuses
/// `ReadFailed` where the clock tells none.
pub fn moment_of<R: Clock>(clock: &R, at: Option<u64>) -> Result<u64, Fault>
    ensures ok { IfOk result (IsMoment at) }
    ensures refused { IfErr result (λ fault. (at ≡ None) × (fault ≡ Device ReadFailed)) }
{
    if let Some(at) = at {
        return Ok(at);
    }
    match seconds(clock) {
        Some(now) => Ok(now),
        None => Err(Fault::Device(Refused::ReadFailed)),
    }
}
