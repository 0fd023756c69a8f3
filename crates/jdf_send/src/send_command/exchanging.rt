//! A message over one connection, and what comes back.

ghost use Rattle.std.specs.Prelude.{IfOk};
ghost use Rattle.jdf_send.specs.SendCommand.{IsPosted};

use crate::input_file::{file_of, open_input};
use crate::send_command::connecting::connect;
use document_commands::CausedFault;
use http_message::{MAX_BODY_BYTES, Received, receive, send_to};
use peers_file::Destination;
use std::alloc::Global;
use std::io::{Read, Write};
use std::net::Net;
use std::rt::Files;
use std::time::{Clock, Duration};
use streams::{Counted, Fault, Refused, read_input};

/// How many seconds an exchange may take: as long as a response to the longest body may need, and
/// no longer than an operator waits.
const EXCHANGE_SECONDS: u64 = 30;

/// The message that a file holds, or that is what a reader has where no file is named or that is
/// `-`. Gives up as `Device` with `ReadFailed`, also for a file that isn't there; as `Input` with
/// `TooLarge`, which are more bytes than a body has at most; and for `Memory`.
pub(crate) fn read_message<R: Files, I: Read>(
    rt: &R,
    alloc: Global,
    file: Option<&str>,
    reader: &mut Counted<I>,
) -> Result<Vec<u8>, CausedFault> {
    let message = match file_of(file) {
        Some(path) => {
            let file = open_input(rt, alloc, path)?;
            read_named(alloc, path, &mut Counted::new(file))?
        }
        None => read_named(alloc, "standard input", reader)?,
    };
    if message.len() > MAX_BODY_BYTES {
        return Err(CausedFault::without_cause(Fault::Input(Refused::TooLarge)));
    }
    Ok(message)
}

/// What a reader has that goes by this name.
fn read_named<I: Read>(
    alloc: Global,
    name: &str,
    reader: &mut Counted<I>,
) -> Result<Vec<u8>, CausedFault> {
    match read_input(alloc, reader) {
        Ok(bytes) => Ok(bytes),
        Err(fault) if fault == Fault::Device(Refused::ReadFailed) => {
            Err(CausedFault::at(alloc, fault, name))
        }
        Err(fault) => Err(CausedFault::without_cause(fault)),
    }
}

/// Posts a message to a destination, and reads the response, for `EXCHANGE_SECONDS` at most.
/// Refuses `NoConnection`, also where none is there within that time and where the clock can't be
/// read; `WriteFailed`; and what `receive` refuses the response for.
pub(crate) fn post<R: Net + Clock>(
    rt: &R,
    alloc: Global,
    destination: &Destination,
    message: &[u8],
) -> Result<Received, CausedFault> {
    let host = destination.authority();
    let limit = Duration::from_secs(EXCHANGE_SECONDS);
    let stream = match connect(rt, destination, limit) {
        Ok(stream) => stream,
        Err(error) => {
            let fault = Fault::Device(Refused::NoConnection);
            return Err(CausedFault::of_error(alloc, fault, host, &error));
        }
    };
    match exchange(alloc, destination, message, &mut Counted::new(stream)) {
        Ok(received) => Ok(received),
        Err(Refused::Core(refusal)) => {
            Err(CausedFault::without_cause(Fault::Device(Refused::Core(refusal))))
        }
        Err(refused) => Err(CausedFault::at(alloc, Fault::Device(refused), host)),
    }
}

/// Posts a message over a connection, and reads the response.
fn exchange<S: Read + Write>(
    alloc: Global,
    destination: &Destination,
    message: &[u8],
    stream: &mut Counted<S>,
) -> Result<Received, Refused>
    ensures { IfOk result (λ received. IsPosted S.remaining S.contents stream.old stream.new
        destination.now message.now received.status received.body) }
{
    send_to(stream, destination.authority(), destination.path(), message)?;
    receive(alloc, stream)
}
