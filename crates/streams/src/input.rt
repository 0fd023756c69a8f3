//! Reading the input.

ghost use Rattle.std.specs.Prelude.{◌≡◌, IfOk, IfErr, vec_len};
ghost use Rattle.streams.specs.Streams.{IsInput, traffic};
ghost use Rattle.streams.specs.Ends.{IsUnread};

use crate::counted::{Counted, is_interruption};
use crate::fault::Fault;
use crate::refused::Refused;
use std::alloc::{AllocError, Global};
use std::io::Read;

/// How many bytes of input are read at most.
pub const MAX_INPUT_BYTES: usize = 4_194_304;

/// How many reads of one input that were interrupted or would have blocked are made again at most.
pub const MAX_INTERRUPTIONS: u64 = 2_000_000;

const READ_SIZE: usize = 65_536;

// A buffer. The proof of its caller then knows its length alone, and no list of that many zeros.
fn zeros(alloc: Global, size: usize) -> Result<Vec<u8>, AllocError>
    ensures { IfOk result (λ v. vec_len v ≡ size) }
{
    vec![in alloc; 0; size]
}

/// Reads to the end. A read that was interrupted or would have blocked is made again, unless
/// `MAX_INTERRUPTIONS` were.
/// Refuses `TooLarge` more bytes than `MAX_INPUT_BYTES`, and then no more is read; `ReadFailed`;
/// and `Memory`.
pub fn read_input<R: Read>(alloc: Global, reader: &mut Counted<R>) -> Result<Vec<u8>, Fault>
    // Proved: Input is read whole within its limits.
    // By `ok`, `err`.
    ensures ok { IfOk result (λ v. IsInput (traffic R.remaining reader.old reader.new) v.items) }
    ensures err { IfErr result (IsUnread (traffic R.remaining reader.old reader.new)) }
{
    let mut buffer = zeros(alloc, READ_SIZE)?;
    let mut input = Vec::new(alloc);
    let interrupted_before = reader.interruptions();
    loop {
        match reader.read(&mut buffer) {
            Ok(0) => return Ok(input),
            Ok(count) => {
                if count > MAX_INPUT_BYTES - input.len() {
                    return Err(Fault::Input(Refused::TooLarge));
                }
                input.extend_from_slice(&buffer[..count])?;
            }
            Err(error) => {
                if !is_interruption(&error) {
                    return Err(Fault::Device(Refused::ReadFailed));
                }
                if reader.interruptions() - interrupted_before > MAX_INTERRUPTIONS {
                    return Err(Fault::Device(Refused::ReadFailed));
                }
            }
        }
    }
}
