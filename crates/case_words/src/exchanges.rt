//! HTTP: what a controller in a file answers to a request, what is sent, and what is received.

use crate::case::{Case, number_in};
use crate::files::locked;
use http_edge::{Counted, Served, receive, send, serve_one};
use keepers::{Keep, Locks};
use std::alloc::{AllocError, Global};
use stored_state::{AnyKept, Kept, StoredController, open_any};
use streams::Refused;

/// Appends a line with the refusal of a request, if there was one, and one with the status of the
/// response.
fn push_served(alloc: Global, lines: &mut Vec<u8>, served: &Served) -> Result<(), AllocError> {
    if let Some(refused) = served.refusal {
        lines.extend_from_slice(refused.line().as_bytes())?;
    }
    let status = served.status;
    lines.extend_from_slice(format!(in alloc; "status {status}\n")?.as_bytes())
}

/// Serves a request; none where it has no response.
fn serve_kept<C: StoredController, K: Keep>(
    alloc: Global,
    kept: &mut Kept<C, K>,
    at: u64,
    request: &[u8],
    writer: &mut Counted<Vec<u8>>,
) -> Option<Served> {
    serve_one(alloc, &mut Counted::new(request), writer, kept, at).ok()
}

/// Serves a request to the controller that a file holds.
fn serve_file<R: Locks>(
    rt: &R,
    alloc: Global,
    file: &str,
    at: u64,
    request: &[u8],
    writer: &mut Counted<Vec<u8>>,
) -> Option<Served> {
    let keep = locked(rt, alloc, file).ok()?;
    match open_any(alloc, keep) {
        Ok(AnyKept::Master(mut kept)) => serve_kept(alloc, &mut kept, at, request, writer),
        Ok(AnyKept::Worker(mut kept)) => serve_kept(alloc, &mut kept, at, request, writer),
        Err(_) => None,
    }
}

/// `serve FILE AT`: the response of the controller that a file holds to the request that is read,
/// at a time, and then what was told of it.
fn serve<R: Locks>(
    rt: &R,
    alloc: Global,
    file: &str,
    at: &[u8],
    request: &[u8],
) -> Result<Vec<u8>, Refused> {
    let mut writer = Counted::new(Vec::new(alloc));
    let at = number_in(at) as u64;
    let served = serve_file(rt, alloc, file, at, request, &mut writer);
    let mut answer = writer.into_inner();
    answer.extend_from_slice(b"\n")?;
    if let Some(served) = served {
        push_served(alloc, &mut answer, &served)?;
    }
    Ok(answer)
}

/// `send`: the request that carries what is read, on lines.
fn sent(alloc: Global, body: &[u8]) -> Result<Vec<u8>, Refused> {
    let mut writer = Counted::new(Vec::new(alloc));
    send(&mut writer, body)?;
    let mut answer = writer.into_inner();
    answer.extend_from_slice(b"\n")?;
    Ok(answer)
}

/// `receive`: the body of the response that is read, and its status.
fn received(alloc: Global, response: &[u8]) -> Result<Vec<u8>, Refused> {
    let received = receive(alloc, &mut Counted::new(response))?;
    let status = received.status;
    let mut answer = Vec::from_slice(alloc, received.body.as_slice())?;
    answer.extend_from_slice(format!(in alloc; "\nstatus {status}\n")?.as_bytes())?;
    Ok(answer)
}

/// What comes of a word of HTTP; none of any other.
fn exchanged<R: Locks>(
    rt: &R,
    alloc: Global,
    word: &str,
    words: &[String],
    input: &[u8],
) -> Option<Result<Vec<u8>, Refused>> {
    match (word, words) {
        ("serve", [file, at]) => Some(serve(rt, alloc, file.as_str(), at.as_bytes(), input)),
        ("send", []) => Some(sent(alloc, input)),
        ("receive", []) => Some(received(alloc, input)),
        _ => None,
    }
}

/// What comes of a case whose first word is one of HTTP, or the refusal's line. None of any other
/// case.
pub fn exchange_answer<R: Locks>(
    rt: &R,
    alloc: Global,
    case: &Case,
) -> Result<Option<Vec<u8>>, AllocError> {
    let Some((word, words)) = case.words.as_slice().split_first() else {
        return Ok(None);
    };
    match exchanged(rt, alloc, word.as_str(), words, case.input.as_slice()) {
        None => Ok(None),
        Some(Ok(answer)) => Ok(Some(answer)),
        Some(Err(refused)) => Ok(Some(Vec::from_slice(alloc, refused.line().as_bytes())?)),
    }
}
