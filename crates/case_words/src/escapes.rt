//! Bytes as they stand in a line.

ghost use Rattle.std.specs.Prelude.{◌<◌, IfSome};

use std::alloc::{AllocError, Global};

/// The number of a digit to the base 16, as `0` to `9` and `A` to `F`.
fn digit(byte: u8) -> Option<u8>
    ensures { IfSome result (λ number. number < 16) }
{
    match byte {
        b'0'..=b'9' => Some(byte - b'0'),
        b'A'..=b'F' => Some(byte - b'A' + 10),
        _ => None,
    }
}

/// The byte of two digits.
fn byte_of(high: u8, low: u8) -> Option<u8> {
    Some(digit(high)? * 16 + digit(low)?)
}

/// Appends what stands behind a `%`: the byte of its two digits, or the `%` where they are none,
/// and what follows.
fn push_piece(bytes: &mut Vec<u8>, piece: &[u8]) -> Result<(), AllocError> {
    if let [high, low, behind @ ..] = piece {
        if let Some(byte) = byte_of(*high, *low) {
            bytes.push(byte)?;
            return bytes.extend_from_slice(behind);
        }
    }
    bytes.push(b'%')?;
    bytes.extend_from_slice(piece)
}

/// The bytes that a text stands for, in which `%` and two digits are a byte.
pub fn bytes_in(alloc: Global, text: &[u8]) -> Result<Vec<u8>, AllocError> {
    let mut pieces = text.split(|byte| *byte == b'%');
    let mut bytes = Vec::from_slice(alloc, pieces.next().unwrap_or(&[]))?;
    for piece in pieces {
        push_piece(&mut bytes, piece)?;
    }
    Ok(bytes)
}
