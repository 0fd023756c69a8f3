ghost use Rattle.std.specs.Prelude.{◌≡◌, ◌≢◌, ◌⊎◌, ◌<◌, length, Option, Some, None, Err};
ghost use Rattle.std.specs.Prelude.{IfOk, IsErr, OnErr, unwrap_or};
ghost use Rattle.cells.specs.Chain.{Version, no_version};
ghost use Rattle.cells.specs.declared.swapped.SwapResult.TheVariants as swapped;
ghost use Rattle.etcd_wire.specs.Answer.{IsFound, Tells, TellsSwap};
ghost use Rattle.etcd_wire.specs.declared.no_answer.NoAnswer.TheVariants.{Unknown};
ghost use Rattle.etcd_cell.specs.Asking.{range_asked, swap_asked, touch_asked};
ghost use Rattle.etcd_cell.specs.Cell.{Learns, LearnsNothing, TellsHeld, unused};
ghost use Rattle.keepers.specs.declared.keep_fault.KeepFault.TheVariants.{Failed};

use crate::asking::{read_over, swap_over, touch_over};
use crate::connector::{Connector, connection_to};
use crate::gateway::Gateway;
use cells::{Cell, SwapResult, VersionedValue};
use etcd_wire::NoAnswer;
use keepers::KeepFault;
use std::alloc::Global;
use std::io;
use std::marker::Model;
use streams::Counted;

/// How many bytes a value has at most. etcd takes half as many again, and each node keeps the last
/// thousands of values in memory.
pub const MAX_VALUE_BYTES: usize = 1_000_000;

/// The value under a key of etcd (our own). Each call is an exchange over a connection of its own.
/// It isn't honest, since no contract can tell what etcd holds.
#[derive(Drop)]
pub struct EtcdCell<C: Connector> {
    alloc: Global,
    connector: C,
    gateway: Gateway,
    key: Vec<u8>,
}

impl<C: Connector> Model for EtcdCell<C> {
    ghost use Rattle.etcd_cell.specs.Cell.{EtcdCellView};

    ghost Value = { EtcdCellView C };

    ghost view = { λ a. record {
      connector = a.connector;
      gateway = a.gateway;
      key = a.key.items;
    } };
}

impl<C: Connector> EtcdCell<C> {
    /// The value under this key.
    pub fn new(alloc: Global, connector: C, gateway: Gateway, key: Vec<u8>) -> EtcdCell<C>
        // Proved: A cell in etcd has its gateway, its key, and what makes its connections.
        ensures { result ≡ record { connector = connector; gateway = gateway; key = key.items } }
    {
        EtcdCell {
            alloc,
            connector,
            gateway,
            key,
        }
    }

    /// A connection to the gateway.
    fn connection(&self) -> io::Result<Counted<C::Stream>>
        ensures ok { IfOk result (λ stream. C.connects self.now.connector self.now.gateway
            (Some stream.inner) × (stream ≡ unused stream.inner)) }
        ensures err { OnErr result (C.connects self.now.connector self.now.gateway None) }
    {
        connection_to(&self.connector, &self.gateway)
    }

    /// What is found under the key.
    fn found(&self) -> Result<Option<VersionedValue>, NoAnswer>
        ensures ok { IfOk result (λ found. Learns C.Stream.remaining C.Stream.contents
            (C.connects self.now.connector self.now.gateway)
            (range_asked self.now.gateway self.now.key)
            (λ status body. Tells status body (λ _ j. IsFound j found))) }
        ensures unknown { result ≡ Err Unknown →
            LearnsNothing C.Stream.remaining C.Stream.contents
            (C.connects self.now.connector self.now.gateway)
            (range_asked self.now.gateway self.now.key)
            ⊎ Learns C.Stream.remaining C.Stream.contents
            (C.connects self.now.connector self.now.gateway)
            (range_asked self.now.gateway self.now.key)
            (λ status body. (found : Option Version)
            → Tells status body (λ _ j. IsFound j found) → ⊥) }
    {
        match self.connection() {
            Ok(mut stream) => {
                read_over(self.alloc, &mut stream, &self.gateway, self.key.as_slice())
            }
            Err(_) => Err(NoAnswer::Unknown),
        }
    }

    /// What a swap by these bytes came to.
    fn swapped(&self, revision: u64, bytes: &[u8]) -> Result<SwapResult, NoAnswer>
        ensures ok { IfOk result (λ told. Learns C.Stream.remaining C.Stream.contents
            (C.connects self.now.connector self.now.gateway)
            (swap_asked self.now.gateway self.now.key revision bytes.now)
            (λ status body. TellsSwap status body told)) }
        ensures unknown { result ≡ Err Unknown →
            LearnsNothing C.Stream.remaining C.Stream.contents
            (C.connects self.now.connector self.now.gateway)
            (swap_asked self.now.gateway self.now.key revision bytes.now) }
    {
        match self.connection() {
            Ok(mut stream) => {
                let key = self.key.as_slice();
                swap_over(self.alloc, &mut stream, &self.gateway, key, revision, bytes)
            }
            Err(_) => Err(NoAnswer::Unknown),
        }
    }

    /// What a touch came to.
    fn touched(&self, revision: u64) -> Result<SwapResult, NoAnswer>
        ensures ok { IfOk result (λ told. Learns C.Stream.remaining C.Stream.contents
            (C.connects self.now.connector self.now.gateway)
            (touch_asked self.now.gateway self.now.key revision)
            (λ status body. TellsSwap status body told)) }
        ensures unknown { result ≡ Err Unknown →
            LearnsNothing C.Stream.remaining C.Stream.contents
            (C.connects self.now.connector self.now.gateway)
            (touch_asked self.now.gateway self.now.key revision) }
    {
        match self.connection() {
            Ok(mut stream) => {
                let key = self.key.as_slice();
                touch_over(self.alloc, &mut stream, &self.gateway, key, revision)
            }
            Err(_) => Err(NoAnswer::Unknown),
        }
    }
}

/// The value that was found, which is of no bytes and of revision 0 where nothing was.
fn held(
    alloc: Global,
    found: Result<Option<VersionedValue>, NoAnswer>,
) -> Result<VersionedValue, KeepFault>
    ensures ok { IfOk found (λ f. IfOk result (λ v. v ≡ unwrap_or f no_version)) }
    ensures err { OnErr found (IsErr result) }
    ensures failed { result ≡ Err Failed → found ≡ Err Unknown }
{
    match found {
        Ok(Some(version)) => Ok(version),
        Ok(None) => Ok(VersionedValue::new(0, Vec::new(alloc))),
        Err(NoAnswer::Unknown) => Err(KeepFault::Failed),
        Err(NoAnswer::Memory) => Err(KeepFault::Memory),
    }
}

impl<C: Connector> Cell for EtcdCell<C> {
    ghost use Rattle.std.specs.Prelude.{false, []};

    ghost is_honest = { false };

    ghost view = { λ _. record { chain = []; may_land = λ _. ⊥ } };

    /// Where nothing is under the key, that is a value of no bytes, of revision 0.
    fn read(&mut self) -> Result<VersionedValue, KeepFault>
        // Proved: What a call of a cell in etcd tells is what a response tells that came over a
        // connection to its gateway, which was made for this call, and over which it asked once,
        // for its own key. A read fails only where no connection or no response came, or one that
        // tells nothing; and a swap by too many bytes is never told to be made.
        // By `ok`, `failed`, `same`; `EtcdCell::swap`: `told`, `large`, `same`; `EtcdCell::touch`:
        // `told`, `same`.
        // Not proved: that a call makes no connection but that one, and that a swap by too many
        // bytes makes none.
        ensures ok { IfOk result (λ v. Learns C.Stream.remaining C.Stream.contents
            (C.connects self.old.connector self.old.gateway)
            (range_asked self.old.gateway self.old.key)
            (λ status body. TellsHeld status body v)) }
        ensures failed { result ≡ Err Failed →
            LearnsNothing C.Stream.remaining C.Stream.contents
            (C.connects self.old.connector self.old.gateway)
            (range_asked self.old.gateway self.old.key)
            ⊎ Learns C.Stream.remaining C.Stream.contents
            (C.connects self.old.connector self.old.gateway)
            (range_asked self.old.gateway self.old.key)
            (λ status body. (found : Option Version)
            → Tells status body (λ _ j. IsFound j found) → ⊥) }
        ensures same { self.new ≡ self.old }
    {
        held(self.alloc, self.found())
    }

    /// Of more than `MAX_VALUE_BYTES` nothing is sent.
    fn swap(&mut self, revision: u64, bytes: &[u8]) -> SwapResult
        ensures told { result ≢ swapped.Unknown →
            Learns C.Stream.remaining C.Stream.contents
            (C.connects self.old.connector self.old.gateway)
            (swap_asked self.old.gateway self.old.key revision bytes.now)
            (λ status body. TellsSwap status body result) }
        ensures large { MAX_VALUE_BYTES < length bytes.now → result ≡ swapped.Unknown }
        ensures same { self.new ≡ self.old }
    {
        if bytes.len() > MAX_VALUE_BYTES {
            return SwapResult::Unknown;
        }
        match self.swapped(revision, bytes) {
            Ok(told) => told,
            Err(_) => SwapResult::Unknown,
        }
    }

    fn touch(&mut self, revision: u64) -> SwapResult
        ensures told { result ≢ swapped.Unknown →
            Learns C.Stream.remaining C.Stream.contents
            (C.connects self.old.connector self.old.gateway)
            (touch_asked self.old.gateway self.old.key revision)
            (λ status body. TellsSwap status body result) }
        ensures same { self.new ≡ self.old }
    {
        match self.touched(revision) {
            Ok(told) => told,
            Err(_) => SwapResult::Unknown,
        }
    }
}
