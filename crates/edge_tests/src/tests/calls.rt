use super::dripping::Dripping;
use peers::{Call, CallLimits, CallTurn};
use std::alloc::{AllocError, Global};
use std::io::ErrorKind;
use std::test::Fail;

const REQUEST: &[u8] = b"POST /jmf HTTP/1.1\r\nContent-Length: 2\r\n\r\n{}";

/// A head of 38 bytes, and a body of two.
const RESPONSE: &[u8] = b"HTTP/1.1 200 OK\r\nContent-Length: 2\r\n\r\n{}";

/// The same without its last byte.
const CUT: &[u8] = b"HTTP/1.1 200 OK\r\nContent-Length: 2\r\n\r\n{";

const REFUSAL: &[u8] = b"HTTP/1.1 413 Too Large\r\nContent-Length: 0\r\n\r\n";

/// A call that begins at 100, for ten seconds.
fn begun(alloc: Global, stream: Dripping) -> Result<Call<Dripping>, AllocError> {
    let request = Vec::from_slice(alloc, REQUEST)?;
    let limits = CallLimits {
        time: 10_000,
        body: 2,
    };
    Ok(Call::new(alloc, request, limits, stream, 100))
}

/// What comes of turns of a call, but for those in which nothing came to an end.
fn turns(alloc: Global, call: Call<Dripping>, now: u64) -> CallTurn<Dripping> {
    let mut call = call;
    for _ in 0..1_000 {
        match call.advance(alloc, &mut [0; 8], now) {
            CallTurn::Wait(next) | CallTurn::Again(next) => call = next,
            turn => return turn,
        }
    }
    CallTurn::Wait(call)
}

/// The status of a response, or why there is none.
fn told(turn: CallTurn<Dripping>) -> (u16, &'static str) {
    match turn {
        CallTurn::Wait(_) | CallTurn::Again(_) => (0, "nothing"),
        CallTurn::Came(received) => (received.status, "a response"),
        CallTurn::Failed(refused) => (0, refused.name()),
    }
}

/// What comes of a call over a stream that gives this and ends so, and takes so many bytes.
fn came(
    alloc: Global,
    text: &'static [u8],
    end: Option<ErrorKind>,
    room: usize,
) -> Result<(u16, &'static str), AllocError> {
    let mut stream = Dripping::new(alloc, text);
    stream.end = end;
    stream.room = room;
    Ok(told(turns(alloc, begun(alloc, stream)?, 200)))
}

/// The bytes of a response that come, how they end, how many bytes of the request are taken, and
/// the status that comes, or why none does.
static CAME: [(&'static [u8], Option<ErrorKind>, usize, u16, &'static str); 6] = [
    (RESPONSE, None, 1_000, 200, "a response"),
    (b"", None, 1_000, 0, "BadHead"),
    (
        b"HTTP/1.1 200 OK\r\nContent-Length: 2\r\n\r",
        None,
        1_000,
        0,
        "BadHead",
    ),
    (
        b"HTTP/1.1 200 OK\r\nContent-Length: 2\r\n\r\n",
        None,
        1_000,
        0,
        "CutShort",
    ),
    (
        CUT,
        Some(ErrorKind::ConnectionReset),
        1_000,
        0,
        "ReadFailed",
    ),
    // Who takes no more of a request may tell why.
    (REFUSAL, None, 7, 413, "a response"),
];

#[test]
fn a_call_comes_to_its_response_or_fails(rt: HostRuntime) -> Result<(), Fail> {
    for row in CAME.iter() {
        let (text, end, room, status, wanted) = *row;
        assert_eq!(rt; came(rt.alloc(), text, end, room)?, (status, wanted));
    }
    Ok(())
}

/// Whether a call waits that has sent its request, whose response is cut and goes on; and what
/// comes of it at its deadline.
fn waited(alloc: Global, call: Call<Dripping>) -> (bool, &'static str) {
    match turns(alloc, call, 10_099) {
        CallTurn::Wait(call) => {
            let has_sent = call.stream().taken.as_slice() == REQUEST;
            (has_sent, told(turns(alloc, call, 10_100)).1)
        }
        turn => (false, told(turn).1),
    }
}

#[test]
fn a_call_that_nobody_answers_fails_in_time(rt: HostRuntime) -> Result<(), Fail> {
    let mut stream = Dripping::new(rt.alloc(), CUT);
    stream.end = Some(ErrorKind::WouldBlock);
    let call = begun(rt.alloc(), stream)?;
    let deadline = call.deadline();
    let (waits, ends) = waited(rt.alloc(), call);
    assert_eq!(rt; (deadline, waits, ends), (10_100, true, "ReadFailed"));
    Ok(())
}
