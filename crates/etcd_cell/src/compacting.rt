//! What an engine is asked to forget.

ghost use Rattle.std.specs.Prelude.{◌≡◌, ◌==◌, Err, IfOk};
ghost use Rattle.etcd_wire.specs.declared.no_answer.NoAnswer.TheVariants.{Unknown};
ghost use Rattle.etcd_cell.specs.Asking.{compaction_asked};
ghost use Rattle.etcd_cell.specs.Cell.{Learns, LearnsNothing};
ghost use Rattle.etcd_cell.specs.Exchange.{Hears, IsUnheard};

use crate::connector::{Connector, connection_to};
use crate::exchange::post;
use crate::gateway::Gateway;
use etcd_wire::{NoAnswer, compaction_request};
use std::alloc::Global;
use std::io::{Read, Write};
use streams::Counted;

/// The target of a request that the past is forgotten.
const COMPACTION: &str = "/v3/kv/compaction";

/// Asks over a stream.
fn compact_over<S: Read + Write>(
    alloc: Global,
    stream: &mut Counted<S>,
    gateway: &Gateway,
    revision: u64,
) -> Result<bool, NoAnswer>
    ensures ok { IfOk result (λ taken. Hears S.remaining S.contents stream.old stream.new
        (compaction_asked gateway.now revision) (λ status body. taken ≡ (status == 200))) }
    ensures unknown { result ≡ Err Unknown → IsUnheard S.remaining S.contents stream.old stream.new
        (compaction_asked gateway.now revision) }
{
    let body = compaction_request(alloc, revision)?;
    match post(
        alloc,
        stream,
        gateway.authority(),
        COMPACTION,
        body.as_slice(),
    ) {
        Ok(response) => Ok(response.status == 200),
        Err(fault) => Err(fault),
    }
}

/// Asks an engine to forget what stood under any key of its before a revision, over a connection
/// that is made for it. Tells whether it was taken: it isn't where that is forgotten already.
/// Refuses `Unknown` where there is no connection or no response, and `Memory`.
pub fn compact<C: Connector>(
    alloc: Global,
    connector: &C,
    gateway: &Gateway,
    revision: u64,
) -> Result<bool, NoAnswer>
    // Proved: An engine is asked once, over a connection to its gateway that was made for this, to
    // forget what stood before a revision; and it is told whether the response's status is 200.
    // By `ok`, `unknown`.
    ensures ok { IfOk result (λ taken. Learns C.Stream.remaining C.Stream.contents
        (C.connects connector.now gateway.now) (compaction_asked gateway.now revision)
        (λ status body. taken ≡ (status == 200))) }
    ensures unknown { result ≡ Err Unknown → LearnsNothing C.Stream.remaining C.Stream.contents
        (C.connects connector.now gateway.now) (compaction_asked gateway.now revision) }
{
    match connection_to(connector, gateway) {
        Ok(mut stream) => compact_over(alloc, &mut stream, gateway, revision),
        Err(_) => Err(NoAnswer::Unknown),
    }
}
