//! The keys of a folder, as etcd tells them.

ghost use Rattle.std.specs.Prelude.{◌≡◌, ◌⊎◌, List, Some, None, Err, IfOk};
ghost use Rattle.etcd_wire.specs.Answer.{IsListing, Tells};
ghost use Rattle.etcd_wire.specs.Answer as answers;
ghost use Rattle.etcd_wire.specs.declared.no_answer.NoAnswer.TheVariants.{Unknown};
ghost use Rattle.etcd_cell.specs.Asking.{listing_asked};
ghost use Rattle.etcd_cell.specs.Cell.{Learns, LearnsNothing};
ghost use Rattle.etcd_cell.specs.Exchange.{Hears, IsUnheard};

use crate::asking::RANGE;
use crate::connector::{Connector, connection_to};
use crate::exchange::post;
use crate::gateway::Gateway;
use etcd_wire::{KeyVersion, NoAnswer, Response, listed_of, listing_request};
use std::alloc::Global;
use std::io::{Read, Write};
use streams::Counted;

/// What a response tells of the keys of a folder.
fn listed(alloc: Global, response: &Response) -> Result<Vec<KeyVersion>, NoAnswer>
    ensures ok { IfOk result (λ ks. Tells response.now.status response.now.body.items
        (λ _ j. IsListing j ks.items)) }
    ensures unknown { result ≡ Err Unknown → (ks : List answers.KeyVersion)
        → Tells response.now.status response.now.body.items (λ _ j. IsListing j ks) → ⊥ }
{
    listed_of(alloc, response.status, response.body.as_slice())
}

/// Asks for the keys of a folder over a stream. Refuses `Unknown` where no response comes, or one
/// that tells nothing; and `Memory`.
pub fn list_over<S: Read + Write>(
    alloc: Global,
    stream: &mut Counted<S>,
    gateway: &Gateway,
    folder: &[u8],
) -> Result<Vec<KeyVersion>, NoAnswer>
    ensures ok { IfOk result (λ ks. Hears S.remaining S.contents stream.old stream.new
        (listing_asked gateway.now folder.now)
        (λ status body. Tells status body (λ _ j. IsListing j ks.items))) }
    ensures unknown { result ≡ Err Unknown →
        IsUnheard S.remaining S.contents stream.old stream.new
        (listing_asked gateway.now folder.now)
        ⊎ Hears S.remaining S.contents stream.old stream.new
        (listing_asked gateway.now folder.now)
        (λ status body. (ks : List answers.KeyVersion)
        → Tells status body (λ _ j. IsListing j ks) → ⊥) }
{
    let body = listing_request(alloc, folder)?;
    match post(alloc, stream, gateway.authority(), RANGE, body.as_slice()) {
        Ok(response) => listed(alloc, &response),
        Err(fault) => Err(fault),
    }
}

/// The keys of a folder, each with the revision of its value, in the order of their bytes: those
/// that begin with these bytes and a `/`. Over a connection that is made for it. Refuses `Unknown`
/// where there is no connection or no response, or one that tells nothing; and `Memory`.
pub fn keys_in<C: Connector>(
    alloc: Global,
    connector: &C,
    gateway: &Gateway,
    folder: &[u8],
) -> Result<Vec<KeyVersion>, NoAnswer>
    // Proved: The keys of a folder are those that a response tells that came over a connection to
    // the gateway, which was made for this, and over which they were asked for once.
    // By `ok`, `unknown`; `list_over`: `ok`, `unknown`.
    // Not proved: that they are in the order of their bytes, and all: etcd is believed in that.
    ensures ok { IfOk result (λ ks. Learns C.Stream.remaining C.Stream.contents
        (C.connects connector.now gateway.now)
        (listing_asked gateway.now folder.now)
        (λ status body. Tells status body (λ _ j. IsListing j ks.items))) }
    ensures unknown { result ≡ Err Unknown →
        LearnsNothing C.Stream.remaining C.Stream.contents
        (C.connects connector.now gateway.now)
        (listing_asked gateway.now folder.now)
        ⊎ Learns C.Stream.remaining C.Stream.contents
        (C.connects connector.now gateway.now)
        (listing_asked gateway.now folder.now)
        (λ status body. (ks : List answers.KeyVersion)
        → Tells status body (λ _ j. IsListing j ks) → ⊥) }
{
    match connection_to(connector, gateway) {
        Ok(mut stream) => list_over(alloc, &mut stream, gateway, folder),
        Err(_) => Err(NoAnswer::Unknown),
    }
}
