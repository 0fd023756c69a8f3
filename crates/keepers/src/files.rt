//! Files read and written as wholes.

ghost use Rattle.std.specs.Prelude.{◌≡◌, OnOk, IfErr, IfOk, vec_len};
ghost use Rattle.std.specs.Io.KnownBytes.{Appends, Consumes, IsAtEnd};

use crate::keep_fault::KeepFault;
use std::alloc::{AllocError, Global};
use std::fs;
use std::io::{ErrorKind, Read, Write};
use std::rt::Files;

/// How many reads of one file are made at most, those that were interrupted among them.
const MAX_READS: u32 = 2_000_000;

const READ_SIZE: usize = 65_536;

/// The bytes of a file. Refuses `Failed` where the system does, or where `MAX_READS` reads don't
/// come to its end, and `Memory`.
pub(crate) fn read_file<R: Files>(rt: &R, alloc: Global, path: &str) -> Result<Vec<u8>, KeepFault> {
    let mut file = fs::open(rt, path)?;
    read_to_end(alloc, &mut file)
}

// A buffer. The proof of its caller then knows its length alone, and no list of that many zeros.
fn zeros(alloc: Global, size: usize) -> Result<Vec<u8>, AllocError>
    ensures { IfOk result (λ v. vec_len v ≡ size) }
{
    vec![in alloc; 0; size]
}

/// All bytes that a reader has left.
fn read_to_end<R: Read>(alloc: Global, reader: &mut R) -> Result<Vec<u8>, KeepFault>
    ensures bytes { IfOk result
        (λ v. Consumes (R.remaining reader.old) (R.remaining reader.new) v.items) }
    ensures all { OnOk result (IsAtEnd (R.remaining reader.new)) }
{
    let mut buffer = zeros(alloc, READ_SIZE)?;
    let mut bytes = Vec::new(alloc);
    for _ in 0..MAX_READS {
        match reader.read(&mut buffer) {
            Ok(0) => return Ok(bytes),
            Ok(count) => bytes.extend_from_slice(&buffer[..count])?,
            Err(error) if error.kind() == ErrorKind::Interrupted => {}
            Err(_) => return Err(KeepFault::Failed),
        }
    }
    Err(KeepFault::Failed)
}

/// Writes all of the bytes. Refuses `Failed` where the system does, or interrupts a write or takes
/// no byte of it.
pub(crate) fn write_whole<W: Write>(writer: &mut W, bytes: &[u8]) -> Result<(), KeepFault>
    ensures ok { OnOk result (Appends (W.contents writer.old) (W.contents writer.new) bytes.now) }
    ensures only { IfErr result (λ fault. fault ≡ KeepFault.Failed) }
{
    let mut done = 0;
    while done < bytes.len() {
        match writer.write(&bytes[done..])? {
            0 => return Err(KeepFault::Failed),
            count => done += count,
        }
    }
    Ok(())
}
