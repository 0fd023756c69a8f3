//! Telling a text beside an output.

ghost use Rattle.document_commands.specs.Told.{TellsText};
ghost use Rattle.streams.specs.Streams.{traffic};

use std::io::Write;
use streams::{Counted, write_bytes};

/// Writes a text. That a write fails is ignored, and then a front of it was written.
pub(crate) fn tell_text<F: Write>(faults: &mut Counted<F>, text: &str)
    ensures { TellsText text.now (traffic F.contents faults.old faults.new) }
{
    let _ = write_bytes(faults, text.as_bytes());
}
