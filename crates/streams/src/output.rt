//! Writing the output.

ghost use Rattle.std.specs.Prelude.{◌≡◌, OnOk, OnErr, IfErr};
ghost use Rattle.streams.specs.declared.refused.Refused.TheVariants.{WriteFailed};
ghost use Rattle.streams.specs.Streams.{Writes, WritesFront, traffic};
ghost use Rattle.streams.specs.declared.fault.Fault.TheVariants.{Device};

use crate::counted::Counted;
use crate::fault::Fault;
use crate::refused::Refused;
use std::io::Write;

/// Writes the bytes. Refuses `WriteFailed` where a write fails, takes no byte or is interrupted,
/// and then a front of the bytes was written.
pub fn write_bytes<W: Write>(writer: &mut Counted<W>, bytes: &[u8]) -> Result<(), Fault>
    // Proved: Output is written whole, or a front of it where a write failed.
    // By `ok`, `front`, `fault`; `tell`.
    ensures ok { OnOk result (Writes (traffic W.contents writer.old writer.new) bytes.now) }
    ensures front { OnErr result (WritesFront
        (traffic W.contents writer.old writer.new) bytes.now) }
    ensures fault { IfErr result (λ f. f ≡ Device WriteFailed) }
{
    let mut done = 0;
    while done < bytes.len() {
        match writer.write(&bytes[done..]) {
            Ok(0) => return Err(Fault::Device(Refused::WriteFailed)),
            Ok(count) => done += count,
            Err(_) => return Err(Fault::Device(Refused::WriteFailed)),
        }
    }
    Ok(())
}
