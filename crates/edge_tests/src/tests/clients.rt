use super::dripping::Dripping;
use http_message::{Methods, Received};
use peers::{Client, Limits, OwedClient, Turn};
use std::alloc::{AllocError, Global};
use std::test::Fail;

const LIMITS: Limits = Limits {
    methods: Methods::Post,
    request: 10_000,
    step: 60_000,
    write: 30_000,
    linger: 2_000,
    spare: 1_000,
    body: 2,
};

/// A head of 76 bytes, and a body of two.
const REQUEST: &[u8] =
    b"POST /jmf HTTP/1.1\r\nHost: press\r\nContent-Length: 2\r\nExpect: 100-continue\r\n\r\n{}";

const RESPONSE: &[u8] = b"HTTP/1.1 204 None\r\n\r\n";

/// What goes to a client that waits to be told to go on, and then has the response.
const TAKEN: &[u8] = b"HTTP/1.1 100 Continue\r\n\r\nHTTP/1.1 204 None\r\n\r\n";

/// What comes of turns of a client that was accepted, or has a response, but for those in which
/// nothing came to an end.
fn turns(alloc: Global, client: Client<Dripping>, now: u64) -> Turn<Dripping> {
    let mut client = client;
    for _ in 0..1_000 {
        match client.advance(alloc, &mut [0; 8], now) {
            Turn::Wait(next) | Turn::Again(next) => client = next,
            turn => return turn,
        }
    }
    Turn::Wait(client)
}

/// A client that was accepted at 100.
fn accepted(alloc: Global, stream: Dripping) -> Client<Dripping> {
    Client::new(alloc, LIMITS, stream, 100)
}

/// What comes of a client.
fn told(turn: &Turn<Dripping>) -> &'static str {
    match turn {
        Turn::Wait(_) | Turn::Again(_) => "nothing",
        Turn::Request(_, _) => "a request",
        Turn::Refused(_, refused) => refused.name(),
        Turn::Written(_) => "all is written",
        Turn::Closed => "its end",
    }
}

/// Whether a request is the one that was sent, and waits for its response as long as it may.
fn is_sent(asked: &OwedClient<Dripping>, request: &Received) -> bool {
    request.target.as_slice() == b"/jmf".as_slice()
        && request.body.as_slice() == b"{}".as_slice()
        && asked.deadline() == 60_200
}

/// Whether a client has taken this, and lingers as long as it may.
fn has_taken(client: &Client<Dripping>, taken: &[u8]) -> bool {
    client.stream().taken.as_slice() == taken && client.deadline() == 2_400
}

/// What comes of a client that has its response.
fn ended(alloc: Global, client: Client<Dripping>, taken: &[u8]) -> &'static str {
    if !has_taken(&client, taken) {
        return "another response";
    }
    match turns(alloc, client, 500) {
        Turn::Closed => "its response, and its end",
        turn => told(&turn),
    }
}

/// What comes of a client whose response is to be written.
fn written(alloc: Global, client: Client<Dripping>, taken: &[u8]) -> &'static str {
    if client.deadline() != 30_300 {
        return "another time for its response";
    }
    match turns(alloc, client, 400) {
        Turn::Written(client) => ended(alloc, client, taken),
        turn => told(&turn),
    }
}

/// What comes of a client whose request came, and which is answered at 300, and is to take this.
fn answered(alloc: Global, turn: Turn<Dripping>, taken: &[u8]) -> Result<&'static str, AllocError> {
    match turn {
        Turn::Request(asked, request) => {
            if !is_sent(&asked, &request) {
                return Ok("another request");
            }
            drop(request);
            Ok(written(alloc, asked.answer(RESPONSE, 300)?, taken))
        }
        turn => Ok(told(&turn)),
    }
}

#[test]
fn a_client_is_answered(rt: HostRuntime) -> Result<(), Fail> {
    let client = accepted(rt.alloc(), Dripping::new(rt.alloc(), REQUEST));
    let deadline = client.deadline();
    let turn = turns(rt.alloc(), client, 200);
    let came = answered(rt.alloc(), turn, TAKEN)?;
    assert_eq!(rt; (deadline, came), (10_100, "its response, and its end"));
    Ok(())
}

/// What comes of a request that is cut behind so many bytes.
fn cut(alloc: Global, end: usize) -> &'static str {
    let stream = Dripping::new(alloc, &REQUEST[..usize::min(end, REQUEST.len())]);
    told(&turns(alloc, accepted(alloc, stream), 200))
}

/// Behind how many bytes a request is cut, and what comes of it.
static CUTS: [(usize, &'static str); 6] = [
    (0, "its end"),
    (1, "BadHead"),
    (75, "BadHead"),
    (76, "CutShort"),
    (77, "CutShort"),
    (78, "a request"),
];

#[test]
fn a_request_that_is_cut_is_refused(rt: HostRuntime) {
    for row in CUTS.iter() {
        let (end, wanted) = *row;
        assert_eq!(rt; cut(rt.alloc(), end), wanted, "cut at {end}");
    }
}

/// What comes of the first turn of a client whose stream never blocks.
fn first_turn(alloc: Global) -> &'static str {
    let mut stream = Dripping::new(alloc, REQUEST);
    stream.blocks = false;
    match accepted(alloc, stream).advance(alloc, &mut [0; 8], 200) {
        Turn::Again(_) => "another turn",
        turn => told(&turn),
    }
}

#[test]
fn a_stream_that_never_blocks_leaves_turns_to_others(rt: HostRuntime) {
    assert_eq!(rt; first_turn(rt.alloc()), "another turn");
}

#[test]
fn a_client_that_takes_no_response_is_closed(rt: HostRuntime) -> Result<(), Fail> {
    let mut stream = Dripping::new(rt.alloc(), REQUEST);
    stream.room = 30;
    let turn = turns(rt.alloc(), accepted(rt.alloc(), stream), 200);
    assert_eq!(rt; answered(rt.alloc(), turn, TAKEN)?, "its end");
    Ok(())
}

/// Two requests, one behind the other.
const TWO: &[u8] = b"POST /jmf HTTP/1.1\r\nHost: press\r\nContent-Length: 2\r\n\r\n{}\
    POST /b HTTP/1.1\r\nHost: press\r\nContent-Length: 2\r\n\r\n{}";

#[test]
fn what_comes_behind_a_request_is_no_other(rt: HostRuntime) -> Result<(), Fail> {
    let client = accepted(rt.alloc(), Dripping::new(rt.alloc(), TWO));
    let turn = turns(rt.alloc(), client, 200);
    let came = answered(rt.alloc(), turn, RESPONSE)?;
    assert_eq!(rt; came, "its response, and its end");
    Ok(())
}
