//! A message over HTTP to a controller beside a keeper in memory.

use http_edge::{Counted, serve_one};
use keepers::MemoryKeep;
use std::alloc::{AllocError, Global};
use std::io::{self, Write};
use stored_state::{Kept, StoredController};
use streams::Refused;

/// How long a response may be.
const ROOM: usize = 65_536;

/// A controller beside a keeper in memory.
type Beside<C> = Kept<C, MemoryKeep>;

/// The request that carries a message.
fn request(alloc: Global, message: &[u8]) -> Result<Vec<u8>, AllocError> {
    let length = message.len();
    let head = format!(in alloc;
        "POST /jmf HTTP/1.1\r\nHost: press\r\nContent-Length: {length}\r\n\r\n"
    );
    let mut request = head?.into_bytes();
    request.extend_from_slice(message)?;
    Ok(request)
}

/// Writes the response to a request, once `Prepared` is written, if that is wanted.
fn write_response<C: StoredController, W: Write>(
    alloc: Global,
    writer: &mut W,
    kept: &mut Beside<C>,
    request: &[u8],
    before: &[u8],
) -> io::Result<()> {
    let mut response = Counted::new(Vec::with_capacity(alloc, ROOM)?);
    let mut reader = Counted::new(request);
    writer.write_all(before)?;
    let served = serve_one(alloc, &mut reader, &mut response, kept, 110);
    let told: &[u8] = match served {
        Ok(_) => b"\n",
        Err(_) => b"No response\n",
    };
    writer.write_all(response.into_inner().as_slice())?;
    writer.write_all(told)
}

/// Writes the response to a message, and to the same once more when the state is loaded again.
fn write_responses<C: StoredController, W: Write>(
    alloc: Global,
    writer: &mut W,
    kept: &mut Beside<C>,
    message: &[u8],
) -> io::Result<()> {
    let request = request(alloc, message)?;
    write_response(alloc, writer, kept, request.as_slice(), b"Prepared\n")?;
    if let Err(refused) = kept.reload(alloc) {
        writer.write_all(refused.line().as_bytes())?;
    }
    write_response(alloc, writer, kept, request.as_slice(), b"")
}

/// Writes the lines for a message to a controller whose state is there.
pub fn write_lines<C: StoredController, W: Write>(
    alloc: Global,
    writer: &mut W,
    state: &[u8],
    message: &[u8],
) -> io::Result<()> {
    let keep = MemoryKeep::new(Vec::from_slice(alloc, state)?);
    let opened: Result<Beside<C>, Refused> = Kept::open(alloc, keep);
    match opened {
        Ok(mut kept) => write_responses(alloc, writer, &mut kept, message),
        Err(refused) => writer.write_all(refused.line().as_bytes()),
    }
}
