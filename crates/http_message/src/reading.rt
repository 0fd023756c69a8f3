//! Messages that are read, and nothing behind them but what comes with a head.

ghost use Rattle.std.specs.Prelude.{◌≡◌, ◌<◌, ◌≤◌, ◌+◌, ◌-◌, ◌^◌, length, take};
ghost use Rattle.std.specs.Prelude.{[], IfErr, IfOk, IfSome, OnOk, vec_len};
ghost use Rattle.std.specs.Io.KnownBytes.{IsAtEnd};
ghost use Rattle.streams.specs.Streams.{traffic};
ghost use Rattle.streams.specs.declared.refused.Refused.TheVariants.{ReadFailed};
ghost use Rattle.http_message.specs.Message.{Carries, HasHead, HasMethod, HasTarget};
ghost use Rattle.http_message.specs.Reading.{Grows, HasFailedIn, HasRead, HasWhole};
ghost use Rattle.http_message.specs.Reading.{IsMoreFault, IsUnfailed, IsUnread, IsUnreadWithin};

use crate::incoming::Incoming;
use crate::kind::Kind;
use crate::length::MAX_BODY_BYTES;
use crate::methods::Methods;
use crate::received::Received;
use crate::standing::Standing;
use crate::whole::WholeMessage;
use std::alloc::{AllocError, Global};
use std::io::Read;
use streams::{Counted, Refused, is_interruption};

/// How many calls of the reader are made for one message at most.
pub const MAX_READS: u64 = 2_000_000;

/// How many bytes are asked for at once.
const READ_SIZE: usize = 16_384;

// A buffer. The proof of its caller then knows its length alone, and no list of that many zeros.
fn zeros(alloc: Global, size: usize) -> Result<Vec<u8>, AllocError>
    ensures { IfOk result (λ v. vec_len v ≡ size) }
{
    vec![in alloc; 0; size]
}

/// Reads some bytes, none at the end. A read that was interrupted or would have blocked is made
/// again.
fn read_some<R: Read>(
    reader: &mut Counted<R>,
    buffer: &mut [u8],
    start: u64,
) -> Result<usize, Refused>
    requires room { 0 < length buffer.old }
    requires low { start ≤ reader.old.calls }
    requires high { reader.old.calls ≤ start + MAX_READS }
    ensures within { IfOk result (λ count. count ≤ length buffer.new) }
    ensures ok { IfOk result (λ count. HasRead start (traffic R.remaining reader.old reader.new)
        (take count buffer.new)) }
    ensures made { OnOk result (reader.old.calls < reader.new.calls) }
    ensures end { IfOk result (λ count. count ≡ 0 → IsAtEnd (R.remaining reader.new.inner)) }
    ensures fault { IfErr result (λ e. (e ≡ ReadFailed)
        × HasFailedIn start (traffic R.remaining reader.old reader.new)) }
    ensures low { start ≤ reader.new.calls }
    ensures high { reader.new.calls ≤ start + MAX_READS }
{
    while reader.calls() - start < MAX_READS {
        match reader.read(buffer) {
            Ok(count) => return Ok(count),
            Err(error) => {
                if !is_interruption(&error) {
                    return Err(Refused::ReadFailed);
                }
            }
        }
    }
    Err(Refused::ReadFailed)
}

/// Reads a piece of a message, of at most so many bytes, and answers how many came: none at the
/// end.
fn read_more<R: Read>(
    reader: &mut Counted<R>,
    buffer: &mut [u8],
    room: usize,
    incoming: &mut Incoming,
    start: u64,
) -> Result<usize, Refused>
    requires buffer { 0 < length buffer.old }
    requires room { 0 < room }
    requires low { start ≤ reader.old.calls }
    requires high { reader.old.calls ≤ start + MAX_READS }
    ensures ok { IfOk result (Grows start (traffic R.remaining reader.old reader.new)
        incoming.old.bytes incoming.new.bytes) }
    ensures kind { incoming.new.kind ≡ incoming.old.kind }
    ensures most { incoming.new.most ≡ incoming.old.most }
    ensures fault { IfErr result (IsMoreFault start (traffic R.remaining reader.old reader.new)) }
    ensures low { start ≤ reader.new.calls }
    ensures high { reader.new.calls ≤ start + MAX_READS }
{
    let size = usize::min(buffer.len(), room);
    let count = read_some(reader, &mut buffer[..size], start)?;
    incoming.push(&buffer[..count])?;
    Ok(count)
}

/// Reads until a message is whole. Refuses what it is refused as, as soon as that is known.
fn read_whole<R: Read>(
    reader: &mut Counted<R>,
    buffer: &mut [u8],
    incoming: &mut Incoming,
    start: u64,
) -> Result<WholeMessage, Refused>
    requires buffer { 0 < length buffer.old }
    requires none { incoming.old.bytes ≡ [] }
    requires low { start ≤ reader.old.calls }
    requires high { reader.old.calls ≤ start + MAX_READS }
    ensures ok { IfOk result (HasWhole incoming.old.most incoming.old.kind start
        (traffic R.remaining reader.old reader.new) incoming.new.bytes) }
    ensures kind { incoming.new.kind ≡ incoming.old.kind }
    ensures most { incoming.new.most ≡ incoming.old.most }
    ensures unread { IfErr result (IsUnreadWithin incoming.old.most incoming.old.kind start
        (traffic R.remaining reader.old reader.new)) }
    ensures high { reader.new.calls ≤ start + MAX_READS }
{
    loop {
        match incoming.look() {
            Standing::Whole(whole) => return Ok(whole),
            Standing::Refused(refused) => return Err(refused),
            Standing::Wanted(wanted) => {
                if read_more(reader, buffer, wanted.room, incoming, start)? == 0 {
                    return Err(wanted.refused);
                }
            }
        }
    }
}

/// Reads a message: `read_request` and `receive` tell its limits and what it is refused for.
fn read_message<R: Read>(
    alloc: Global,
    reader: &mut Counted<R>,
    kind: Kind,
) -> Result<Received, Refused>
    ensures ok { IfOk result (λ message. IfSome (R.remaining reader.old.inner)
        (λ all. Carries kind all message.status message.body)) }
    ensures method { IfOk result (λ message. IfSome (R.remaining reader.old.inner)
        (λ all. HasMethod kind all message.method)) }
    ensures head { IfOk result (λ message. IfSome (R.remaining reader.old.inner)
        (λ all. HasHead kind all message.head.items)) }
    ensures target { IfOk result (λ message. IfSome (R.remaining reader.old.inner)
        (λ all. HasTarget kind all message.target.items)) }
    ensures unfailed { OnOk result (IsUnfailed (traffic R.remaining reader.old reader.new)) }
    ensures unread { IfErr result (IsUnread kind reader.old.calls
        (traffic R.remaining reader.old reader.new)) }
    ensures bound { reader.new.calls ≤ reader.old.calls + MAX_READS }
{
    let start = reader.calls();
    let mut buffer = zeros(alloc, READ_SIZE)?;
    let mut incoming = Incoming::new(alloc, kind, MAX_BODY_BYTES as u32);
    let whole = read_whole(reader, &mut buffer, &mut incoming, start)?;
    Ok(incoming.into_received(alloc, whole)?)
}

/// Reads a request (RFC 9112) and gives its head, its target and its body. Fields have any case;
/// what isn't named here is ignored. Refuses in this order: `BadHead` where no whole head comes
/// within 8,192 bytes and 64 fields, where HTTP/1.1 hasn't one Host, and where Content-Length isn't
/// one field of digits alone; `NotPost`; `Coding` for any Transfer-Encoding or Content-Encoding;
/// `NoLength`; `TooLarge` more than 1,048,576 bytes of body; `CutShort`. A read that was
/// interrupted or would have blocked is made again; where one failed, or 2,000,000 were made, it
/// refuses `ReadFailed`, and `Memory` where that runs out. Limits and refusals are our own.
pub fn read_request<R: Read>(alloc: Global, reader: &mut Counted<R>) -> Result<Received, Refused>
    // Proved: The body of a request is the one that stands at the front of the input, behind a
    // head within its limits that tells its length.
    ensures ok { IfOk result (λ request. IfSome (R.remaining reader.old.inner)
        (λ all. Carries (Kind.Request Methods.Post) all 0 request.body)) }
    // Proved: The target of a request and its method are those of its head.
    // By `target`, `method`.
    ensures method { IfOk result (λ request. IfSome (R.remaining reader.old.inner)
        (λ all. HasMethod (Kind.Request Methods.Post) all request.method)) }
    // Proved: The bytes of a request's head are those at the front of the input.
    ensures head { IfOk result (λ request. IfSome (R.remaining reader.old.inner)
        (λ all. HasHead (Kind.Request Methods.Post) all request.head.items)) }
    ensures target { IfOk result (λ request. IfSome (R.remaining reader.old.inner)
        (λ all. HasTarget (Kind.Request Methods.Post) all request.target.items)) }
    // Proved: No read failed where a message was read, and none where the input is refused as its
    // first fault or memory runs out; else a read failed or 2,000,000 were made.
    // By `unfailed`, `unread`; `receive`: `unfailed`, `unread`.
    ensures unfailed { OnOk result (IsUnfailed (traffic R.remaining reader.old reader.new)) }
    ensures unread { IfErr result (IsUnread (Kind.Request Methods.Post)
        reader.old.calls (traffic R.remaining reader.old reader.new)) }
    // Proved: At most 2,000,000 reads are made.
    // By `bound`; `receive`: `bound`.
    ensures bound { reader.new.calls ≤ reader.old.calls + MAX_READS }
{
    read_message(alloc, reader, Kind::Request(Methods::Post))
}

/// Reads a response (RFC 9112) and gives its status and body. Refuses as `read_request`, but that
/// it looks for no Host and no method.
pub fn receive<R: Read>(alloc: Global, reader: &mut Counted<R>) -> Result<Received, Refused>
    // Proved: The body of a response is the one that stands at the front of the input, behind a
    // head within its limits that tells its length, with its status.
    ensures ok { IfOk result (λ message. IfSome (R.remaining reader.old.inner)
        (λ all. Carries Kind.Response all message.status message.body)) }
    ensures unfailed { OnOk result (IsUnfailed (traffic R.remaining reader.old reader.new)) }
    ensures unread { IfErr result (IsUnread Kind.Response reader.old.calls
        (traffic R.remaining reader.old reader.new)) }
    ensures bound { reader.new.calls ≤ reader.old.calls + MAX_READS }
{
    read_message(alloc, reader, Kind::Response)
}
