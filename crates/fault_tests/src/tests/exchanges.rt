//! One exchange over HTTP, of which each read and each write is cut in turn. Both go a byte a call.

use super::lent::Lent;
use super::loads;
use super::texts::{NO_ENTRY, OPEN_ENTRY, SUBMIT};
use http_edge::{Counted, Cut, CutReader, CutWriter, EdgeFault, Served, serve_one};
use keepers::{FailingKeep, Keep, MemoryKeep};
use std::alloc::{AllocError, Global};
use std::test::Fail;
use stored_state::{Kept, Refused, StoredController};
use worker_core::Worker;

const HEAD: &str = "POST /jmf HTTP/1.1\r\nHost: press\r\nContent-Length: 809\r\n\r\n";

const NO_MESSAGE: &str = "POST /jmf HTTP/1.1\r\nHost: press\r\nContent-Length: 2\r\n\r\n{}";

const RESPONSE: &str =
    "HTTP/1.1 200 OK\r\nContent-Type: application/json\r\nContent-Length: 227\r\nConnection: close\r\n\r\n{\"JMF\":{\"ReceiverID\":\"mis\",\"Response\":{\"ID\":\"Q.S1.a\",\"QueueEntry\":{\"QueueEntryID\":\"S1\",\"Status\":\"Running\"},\"Reason\":0,\"ReturnCode\":0,\"Type\":\"SubmitQueueEntry\",\"refID\":\"Q.S1\"},\"SenderID\":\"press\",\"TimeStamp\":110,\"Version\":\"1.5\"}}";

/// What is written where the step can't be saved, and from then on.
const UNSAVED: &str =
    "HTTP/1.1 503 Service Unavailable\r\nContent-Length: 0\r\nConnection: close\r\n\r\n";

/// What is cut, and at which call; no call has the number 0.
type CutAt = (Cut, usize);

const WHOLE: CutAt = (Cut::Interrupts, 0);

/// The request that carries the part.
fn request(alloc: Global) -> Result<Vec<u8>, AllocError> {
    let mut request = Vec::from_slice(alloc, HEAD.as_bytes())?;
    request.extend_from_slice(SUBMIT.as_bytes())?;
    Ok(request)
}

/// A keeper of a worker that has taken nothing.
fn keep(alloc: Global) -> Result<MemoryKeep, AllocError> {
    Ok(MemoryKeep::new(Vec::from_slice(alloc, NO_ENTRY.as_bytes())?))
}

/// What a request comes to, and what was written.
#[derive(Drop)]
struct Exchange {
    status: Result<u16, EdgeFault>,
    written: Vec<u8>,
}

/// The status of what was served.
fn status_of(served: Result<Served, EdgeFault>) -> Result<u16, EdgeFault> {
    match served {
        Ok(served) => Ok(served.status),
        Err(fault) => Err(fault),
    }
}

/// Serves the request of a reader that is cut so.
fn serve_kept<C: StoredController, K: Keep>(
    alloc: Global,
    kept: &mut Kept<C, K>,
    request: &[u8],
    read: CutAt,
    writer: &mut Counted<CutWriter>,
) -> Result<u16, EdgeFault> {
    let mut reader = Counted::new(CutReader::new(request, read.0, read.1 as u64));
    status_of(serve_one(alloc, &mut reader, writer, kept, 110))
}

/// Serves the request of a reader and a writer that are cut so, to the worker that is kept. None
/// where it can't be opened.
fn serve_over(
    alloc: Global,
    keep: &mut MemoryKeep,
    request: &[u8],
    read: CutAt,
    write: CutAt,
) -> Option<Exchange> {
    let mut writer = Counted::new(CutWriter::new(alloc, write.0, write.1 as u64));
    let opened: Result<Kept<Worker, Lent<'_, MemoryKeep>>, Refused> = Kept::open(
        alloc,
        Lent::new(keep),
    );
    let status = match opened {
        Ok(mut kept) => serve_kept(alloc, &mut kept, request, read, &mut writer),
        Err(_) => return None,
    };
    Some(Exchange {
        status,
        written: writer.into_inner().taken,
    })
}

/// Whether the exchange comes to this, and as many bytes of the response are written.
fn comes_to(exchange: Option<Exchange>, status: Result<u16, EdgeFault>, length: usize) -> bool {
    match exchange {
        Some(exchange) => {
            exchange.status == status
                && exchange.written.len() == length
                && RESPONSE.as_bytes().starts_with(exchange.written.as_slice())
        }
        None => false,
    }
}

/// Whether a request of which this read fails changes nothing and is answered by nothing.
fn is_unread(alloc: Global, keep: &mut MemoryKeep, request: &[u8], read: CutAt) -> bool {
    let exchange = serve_over(alloc, keep, request, read, WHOLE);
    comes_to(exchange, Err(EdgeFault::ReadFailed), 0) && loads(keep, NO_ENTRY.as_bytes())
}

/// Whether a request of which no read fails is answered, and its part taken.
fn is_served(alloc: Global, keep: &mut MemoryKeep, request: &[u8], read: CutAt) -> bool {
    let exchange = serve_over(alloc, keep, request, read, WHOLE);
    comes_to(exchange, Ok(200), RESPONSE.len()) && loads(keep, OPEN_ENTRY.as_bytes())
}

/// Whether the part is taken where this write fails, and the request, that comes again, is
/// answered.
fn is_unwritten(alloc: Global, keep: &mut MemoryKeep, request: &[u8], write: CutAt) -> bool {
    let written = write.1.saturating_sub(1);
    let exchange = serve_over(alloc, keep, request, WHOLE, write);
    comes_to(exchange, Err(EdgeFault::WriteFailed), written)
        && loads(keep, OPEN_ENTRY.as_bytes())
        && is_served(alloc, keep, request, WHOLE)
}

#[test]
fn a_read_fails(rt: HostRuntime) -> Result<(), Fail> {
    let request = request(rt.alloc())?;
    let mut keep = keep(rt.alloc())?;
    for at in 1..=request.len() {
        let read = (Cut::Fails, at);
        assert!(rt;
            is_unread(rt.alloc(), &mut keep, request.as_slice(), read),
            "{at}"
        );
    }
    for at in [1, 57] {
        let read = (Cut::InterruptsOn, at);
        assert!(rt;
            is_unread(rt.alloc(), &mut keep, request.as_slice(), read),
            "{at}"
        );
    }
    Ok(())
}

#[test]
fn a_read_is_made_again(rt: HostRuntime) -> Result<(), Fail> {
    let request = request(rt.alloc())?;
    for at in 0..=request.len() {
        let mut keep = keep(rt.alloc())?;
        let read = (Cut::Interrupts, at);
        assert!(rt;
            is_served(rt.alloc(), &mut keep, request.as_slice(), read),
            "{at}"
        );
    }
    Ok(())
}

#[test]
fn a_write_fails(rt: HostRuntime) -> Result<(), Fail> {
    let request = request(rt.alloc())?;
    for cut in [Cut::Fails, Cut::Ends, Cut::Interrupts] {
        for at in 1..=RESPONSE.len() {
            let mut keep = keep(rt.alloc())?;
            let write = (cut, at);
            assert!(rt;
                is_unwritten(rt.alloc(), &mut keep, request.as_slice(), write),
                "{at}"
            );
        }
    }
    Ok(())
}

/// Whether a request is answered so that its step couldn't be saved, for this refusal.
fn is_told_unsaved<C: StoredController, K: Keep>(
    alloc: Global,
    kept: &mut Kept<C, K>,
    request: &[u8],
    refused: Refused,
) -> bool {
    let mut reader = Counted::new(request);
    let mut writer = Counted::new(Vec::new(alloc));
    let served = serve_one(alloc, &mut reader, &mut writer, kept, 110);
    let written = writer.into_inner();
    match served {
        Ok(told) => {
            told.status == 503
                && told.refusal == Some(refused)
                && written.as_slice() == UNSAVED.as_bytes()
        }
        Err(_) => false,
    }
}

/// Whether a part whose save fails, and a body that is no message behind it, are answered so.
fn are_told_unsaved<C: StoredController, K: Keep>(alloc: Global, keep: K, request: &[u8]) -> bool {
    let opened: Result<Kept<C, K>, Refused> = Kept::open(alloc, keep);
    match opened {
        Ok(mut kept) => {
            is_told_unsaved(alloc, &mut kept, request, Refused::SaveFailed)
                && is_told_unsaved(alloc, &mut kept, NO_MESSAGE.as_bytes(), Refused::Stale)
        }
        Err(_) => false,
    }
}

/// Whether a worker of which the first save fails, and leaves the new state or the old, answers so.
fn tells_unsaved(alloc: Global, request: &[u8], leaves_new: bool) -> Result<bool, AllocError> {
    let bytes = Vec::from_slice(alloc, NO_ENTRY.as_bytes())?;
    let keep = FailingKeep::new(bytes, 2, leaves_new);
    Ok(are_told_unsaved::<Worker, FailingKeep>(alloc, keep, request))
}

#[test]
fn a_save_fails(rt: HostRuntime) -> Result<(), Fail> {
    let request = request(rt.alloc())?;
    for leaves_new in [false, true] {
        let told = tells_unsaved(rt.alloc(), request.as_slice(), leaves_new)?;
        assert!(rt; told, "{leaves_new}");
    }
    Ok(())
}
