//! Texts that are written piece by piece, so that no memory is taken for the whole.

ghost use Rattle.std.specs.Prelude.{◌≡◌, OnOk, OnErr, IfErr};
ghost use Rattle.streams.specs.declared.refused.Refused.TheVariants.{WriteFailed};
ghost use Rattle.streams.specs.Streams.{Writes, WritesFront, traffic};
ghost use Rattle.http_message.specs.Pieces.{bytes_of_pieces};

use std::io::Write;
use streams::{Counted, Refused, write_bytes};

/// Writes the pieces one after the other. Refuses `WriteFailed` where a write fails.
pub(crate) fn write_pieces<W: Write>(
    writer: &mut Counted<W>,
    pieces: &[&[u8]],
) -> Result<(), Refused>
    ensures ok { OnOk result (Writes (traffic W.contents writer.old writer.new)
        (bytes_of_pieces pieces.now)) }
    ensures front { OnErr result
        (WritesFront (traffic W.contents writer.old writer.new) (bytes_of_pieces pieces.now)) }
    ensures refusal { IfErr result (λ e. e ≡ WriteFailed) }
{
    for piece in pieces {
        match write_bytes(writer, piece) {
            Ok(()) => {}
            Err(_) => return Err(Refused::WriteFailed),
        }
    }
    Ok(())
}
