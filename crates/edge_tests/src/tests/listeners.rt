//! Requests by each method, to each listener.

use super::dripping::Dripping;
use http_message::{Method, Methods};
use peers::{Client, Limits, Turn};
use std::alloc::Global;

/// Those of a listener of these methods.
fn limits(methods: Methods) -> Limits {
    Limits {
        methods,
        request: 10_000,
        step: 60_000,
        write: 30_000,
        linger: 2_000,
        spare: 1_000,
        body: 2,
    }
}

const POST: &[u8] = b"POST / HTTP/1.1\r\nHost: press\r\nContent-Length: 2\r\n\r\n{}";

const NO_LENGTH: &[u8] = b"POST / HTTP/1.1\r\nHost: press\r\n\r\n{}";

const GET: &[u8] = b"GET /press.json?job=J HTTP/1.1\r\nHost: press\r\n\r\n";

const NO_HOST: &[u8] = b"GET / HTTP/1.1\r\n\r\n";

const OLD_GET: &[u8] = b"GET / HTTP/1.0\r\n\r\n";

const HEAD: &[u8] = b"HEAD / HTTP/1.1\r\nHost: press\r\nContent-Length: 0\r\n\r\n";

const LONG_GET: &[u8] = b"GET / HTTP/1.1\r\nHost: press\r\nContent-Length: 1\r\n\r\n{";

const CODED_GET: &[u8] =
    b"GET / HTTP/1.1\r\nHost: press\r\nTransfer-Encoding: chunked\r\n\r\n1\r\n{\r\n0\r\n\r\n";

const LOWER_GET: &[u8] = b"get / HTTP/1.1\r\nHost: press\r\n\r\n";

const PUT: &[u8] = b"PUT / HTTP/1.1\r\nHost: press\r\nContent-Length: 2\r\n\r\n{}";

/// What comes of a client's turns, but for those in which nothing came to an end.
fn turns(alloc: Global, client: Client<Dripping>) -> Turn<Dripping> {
    let mut client = client;
    for _ in 0..1_000 {
        match client.advance(alloc, &mut [0; 8], 200) {
            Turn::Wait(next) | Turn::Again(next) => client = next,
            turn => return turn,
        }
    }
    Turn::Wait(client)
}

/// What comes of these bytes, to a listener of these methods.
fn came(alloc: Global, methods: Methods, bytes: &'static [u8]) -> Turn<Dripping> {
    let client = Client::new(alloc, limits(methods), Dripping::new(alloc, bytes), 100);
    turns(alloc, client)
}

/// The method of a request, or why it is refused.
fn told(turn: &Turn<Dripping>) -> &'static str {
    match turn {
        Turn::Request(_, request) => match request.method {
            Some(Method::Post) => "POST",
            Some(Method::Get) => "GET",
            Some(Method::Head) => "HEAD",
            None => "no method",
        },
        Turn::Refused(_, refused) => refused.name(),
        _ => "nothing",
    }
}

/// What comes of a request to a listener of messages, to one of orders, and to the page's.
static TOLD: [(&'static [u8], &'static str, &'static str, &'static str); 10] = [
    (POST, "POST", "POST", REFUSED),
    (NO_LENGTH, "NoLength", "NoLength", REFUSED),
    (GET, REFUSED, "GET", "GET"),
    (NO_HOST, "BadHead", "BadHead", "BadHead"),
    (OLD_GET, REFUSED, "GET", "GET"),
    (HEAD, REFUSED, REFUSED, "HEAD"),
    (LONG_GET, REFUSED, "TooLarge", "TooLarge"),
    (CODED_GET, REFUSED, "Coding", "Coding"),
    (LOWER_GET, REFUSED, REFUSED, REFUSED),
    (PUT, REFUSED, REFUSED, REFUSED),
];

const REFUSED: &str = "NotPost";

/// What is told of a request to a listener of these methods.
fn said(alloc: Global, methods: Methods, bytes: &'static [u8]) -> &'static str {
    told(&came(alloc, methods, bytes))
}

/// Whether the request of a row comes to what is told of it.
fn is_told(alloc: Global, row: &(&'static [u8], &str, &str, &str)) -> bool {
    said(alloc, Methods::Post, row.0) == row.1
        && said(alloc, Methods::PostOrGet, row.0) == row.2
        && said(alloc, Methods::GetOrHead, row.0) == row.3
}

#[test]
fn a_listener_takes_its_methods(rt: HostRuntime) {
    for (number, row) in TOLD.iter().enumerate() {
        assert!(rt; is_told(rt.alloc(), row), "row {number}");
    }
}
