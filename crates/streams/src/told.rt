//! Telling why the command gave up.

ghost use Rattle.streams.specs.Ends.{Tells};
ghost use Rattle.streams.specs.Streams.{traffic};

use crate::counted::Counted;
use crate::fault::Fault;
use crate::output::write_bytes;
use std::io::Write;

/// Writes the line of the fault. That a write fails is ignored, and then a front of it was written.
pub fn tell<F: Write>(faults: &mut Counted<F>, fault: &Fault)
    ensures { Tells fault.now (traffic F.contents faults.old faults.new) }
{
    let _ = write_bytes(faults, fault.line().as_bytes());
}
