//! What is asked about a value over a stream, and what is heard of it.

ghost use Rattle.std.specs.Prelude.{◌≡◌, ◌≢◌, ◌⊎◌, Option, Err, IfOk};
ghost use Rattle.cells.specs.Chain.{Version};
ghost use Rattle.etcd_wire.specs.Answer.{IsFound, Tells, TellsSwap};
ghost use Rattle.etcd_wire.specs.declared.no_answer.NoAnswer.TheVariants.{Unknown};
ghost use Rattle.etcd_cell.specs.Asking.{range_asked, swap_asked, touch_asked};
ghost use Rattle.etcd_cell.specs.Exchange.{Hears, IsUnheard};

use crate::exchange::post;
use crate::gateway::Gateway;
use cells::{SwapResult, VersionedValue};
use etcd_wire::{
    NoAnswer, Response, held_of, range_request, swap_request, swapped_of, touch_request,
};
use std::alloc::Global;
use std::io::{Read, Write};
use streams::Counted;

/// The target of a request for what is under a key, or for keys.
pub(crate) const RANGE: &str = "/v3/kv/range";

/// The target of a request that changes it.
const CHANGE: &str = "/v3/kv/txn";

/// What a response tells of what is under a key.
fn found(alloc: Global, response: &Response) -> Result<Option<VersionedValue>, NoAnswer>
    ensures ok { IfOk result (λ found. Tells response.now.status response.now.body.items
        (λ _ j. IsFound j found)) }
    ensures unknown { result ≡ Err Unknown → (found : Option Version)
        → Tells response.now.status response.now.body.items (λ _ j. IsFound j found) → ⊥ }
{
    held_of(alloc, response.status, response.body.as_slice())
}

/// Asks for the value under a key. Refuses `Unknown` where no response comes, or one that tells
/// nothing; and `Memory`.
pub fn read_over<S: Read + Write>(
    alloc: Global,
    stream: &mut Counted<S>,
    gateway: &Gateway,
    key: &[u8],
) -> Result<Option<VersionedValue>, NoAnswer>
    // Proved: What is under a key is asked by one request, and so are a swap and a touch of it: it
    // is written to the stream, whole, and what is told is what the response tells that came then.
    // Where nothing is told, no response came, or to a read one that tells nothing.
    // By `ok`, `unknown`; `swap_over`, `touch_over`: `ok`, `unknown`.
    ensures ok { IfOk result (λ found. Hears S.remaining S.contents stream.old stream.new
        (range_asked gateway.now key.now)
        (λ status body. Tells status body (λ _ j. IsFound j found))) }
    ensures unknown { result ≡ Err Unknown →
        IsUnheard S.remaining S.contents stream.old stream.new (range_asked gateway.now key.now)
        ⊎ Hears S.remaining S.contents stream.old stream.new (range_asked gateway.now key.now)
        (λ status body. (found : Option Version)
        → Tells status body (λ _ j. IsFound j found) → ⊥) }
{
    let body = range_request(alloc, key)?;
    match post(alloc, stream, gateway.authority(), RANGE, body.as_slice()) {
        Ok(response) => found(alloc, &response),
        Err(fault) => Err(fault),
    }
}

/// What a response tells of a swap or a touch.
fn told(alloc: Global, response: &Response) -> Result<SwapResult, NoAnswer>
    ensures ok { IfOk result (TellsSwap response.now.status response.now.body.items) }
    ensures known { result ≢ Err Unknown }
{
    Ok(swapped_of(alloc, response.status, response.body.as_slice())?)
}

/// Asks for these bytes under a key, in place of those of this revision. Refuses `Unknown` where no
/// response comes, and `Memory`.
pub fn swap_over<S: Read + Write>(
    alloc: Global,
    stream: &mut Counted<S>,
    gateway: &Gateway,
    key: &[u8],
    revision: u64,
    bytes: &[u8],
) -> Result<SwapResult, NoAnswer>
    ensures ok { IfOk result (λ swapped. Hears S.remaining S.contents stream.old stream.new
        (swap_asked gateway.now key.now revision bytes.now)
        (λ status body. TellsSwap status body swapped)) }
    ensures unknown { result ≡ Err Unknown → IsUnheard S.remaining S.contents stream.old stream.new
        (swap_asked gateway.now key.now revision bytes.now) }
{
    let body = swap_request(alloc, key, revision, bytes)?;
    match post(alloc, stream, gateway.authority(), CHANGE, body.as_slice()) {
        Ok(response) => told(alloc, &response),
        Err(fault) => Err(fault),
    }
}

/// Asks for a later revision of what is under a key, where it has this one. Refuses `Unknown` where
/// no response comes, and `Memory`.
pub fn touch_over<S: Read + Write>(
    alloc: Global,
    stream: &mut Counted<S>,
    gateway: &Gateway,
    key: &[u8],
    revision: u64,
) -> Result<SwapResult, NoAnswer>
    ensures ok { IfOk result (λ swapped. Hears S.remaining S.contents stream.old stream.new
        (touch_asked gateway.now key.now revision)
        (λ status body. TellsSwap status body swapped)) }
    ensures unknown { result ≡ Err Unknown → IsUnheard S.remaining S.contents stream.old stream.new
        (touch_asked gateway.now key.now revision) }
{
    let body = touch_request(alloc, key, revision)?;
    match post(alloc, stream, gateway.authority(), CHANGE, body.as_slice()) {
        Ok(response) => told(alloc, &response),
        Err(fault) => Err(fault),
    }
}
