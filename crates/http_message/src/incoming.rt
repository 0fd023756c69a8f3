//! A message in the making.

ghost use Rattle.std.specs.Prelude.{◌≡◌, ◌<◌, ◌≤◌, ◌+◌, ◌-◌, ◌^◌, ◌++◌, [], length};
ghost use Rattle.std.specs.Prelude.{IfOk, OnOk, OnErr};
ghost use Rattle.http_message.specs.Incoming.{IsFound, IsRead, IsWhole, Says, Stands, line_feeds};
ghost use Rattle.http_message.specs.Incoming as making;
ghost use Rattle.http_message.specs.declared.look.Look.TheVariants as looks;

use crate::arrival::Arrival;
use crate::body::Body;
use crate::head_says::HeadFacts;
use crate::kind::Kind;
use crate::look::Look;
use crate::looking::{MAX_HEAD_BYTES, look_for_head};
use crate::received::Received;
use crate::standing::Standing;
use crate::wanted::Need;
use crate::whole::WholeMessage;
use std::alloc::{AllocError, Global};
use std::io::{ErrorKind, Read};
use std::marker::Model;
use streams::{Counted, Refused};

/// A message in the making: the bytes that came of it, behind which any may follow. A head is
/// looked for only where a line ends that isn't empty, or as many bytes came as a head has at most.
#[derive(Drop)]
pub struct Incoming {
    kind: Kind,
    most: u32,
    bytes: Vec<u8>,
    found: Look,
    looks: usize,
}

impl Model for Incoming {
    ghost use Rattle.http_message.specs.Incoming.{IncomingView, IsComing};

    ghost Value = { IncomingView };

    ghost view = { λ a. record {
      kind = a.kind;
      most = a.most;
      bytes = a.bytes.items;
      looks = a.looks;
    } };

    ghost invariant = { λ a. IsComing a.most a.kind a.bytes.items a.found a.looks };
}

/// Whether a line ends in a piece.
fn ends_line(piece: &[u8]) -> bool
    ensures { result ≡ making.ends_line piece.now }
{
    piece.iter().any(|byte| *byte == b'\n')
}

/// Whether bytes are of empty lines alone.
fn is_blank(bytes: &[u8]) -> bool
    ensures { result ≡ making.is_blank bytes.now }
{
    bytes.iter().all(|byte| *byte == b'\n' || *byte == b'\r')
}

/// Whether a head is looked for in the bytes, of which the piece came last: one may end there, or
/// none can any more.
fn wants_look(found: &Look, bytes: &[u8], piece: &[u8]) -> bool
    ensures { result ≡ making.wants_look found.now bytes.now piece.now }
{
    match found {
        Look::Part => { (ends_line(piece) && !is_blank(bytes)) || bytes.len() >= MAX_HEAD_BYTES }
        Look::Head(_) | Look::Never => false,
    }
}

/// What is found of a head.
fn found_in(kind: Kind, bytes: &[u8], most: u32) -> Look
    ensures { IsFound most kind bytes.now result }
{
    look_for_head(kind, bytes, most)
}

/// How far a message is whose head is there.
fn standing_behind(kind: Kind, bytes: &[u8], told: &HeadFacts, most: u32) -> Standing
    requires { IsFound most kind bytes.now (looks.Head told.now) }
    ensures { Stands most kind bytes.now result }
{
    let length = match told.says {
        Ok(length) => length,
        Err(refused) => return Standing::Refused(refused),
    };
    let end = told.size + length;
    if bytes.len() < end {
        return Standing::Wanted(Need {
            refused: Refused::CutShort,
            room: end - bytes.len(),
            expects_continue: told.expects_continue,
        });
    }
    Standing::Whole(WholeMessage {
        status: told.code,
        method: told.method,
        target: told.target,
        start: told.size,
        end,
    })
}

/// How far a message is of which no head is there yet.
fn standing_before(kind: Kind, bytes: &[u8], most: u32) -> Standing
    requires { IsFound most kind bytes.now looks.Part }
    ensures { Stands most kind bytes.now result }
{
    Standing::Wanted(Need {
        refused: Refused::BadHead,
        room: MAX_HEAD_BYTES - bytes.len(),
        expects_continue: false,
    })
}

/// How far a message is of which this was found.
fn standing_of(kind: Kind, bytes: &[u8], found: &Look, most: u32) -> Standing
    requires { IsFound most kind bytes.now found.now }
    ensures { Stands most kind bytes.now result }
{
    match found {
        Look::Head(told) => standing_behind(kind, bytes, told, most),
        Look::Part => standing_before(kind, bytes, most),
        Look::Never => Standing::Refused(Refused::BadHead),
    }
}

impl Incoming {
    /// A message of which nothing has come, whose body has at most so many bytes.
    pub fn new(alloc: Global, kind: Kind, most: u32) -> Incoming
        // Proved: Which methods are taken is said where a message is begun. What comes is a
        // request by one of these, and one by GET or HEAD has no body.
        // By `laws::a_request_is_by_a_method_that_is_taken`.
        // Proved: A message in the making takes pieces however they are cut: more is wanted, and
        // how much, or it is refused, or it is whole, whatever follows; by the same definitions of
        // the whole input.
        // By `Incoming::look`, `Incoming::len`; `Incoming::push`: `ok`, `err`, `kind`, `most`.
        ensures { result ≡ record { kind = kind; most = most; bytes = []; looks = 0 } }
    {
        Incoming {
            kind,
            most,
            bytes: Vec::new(alloc),
            found: Look::Part,
            looks: 0,
        }
    }

    /// How many bytes came.
    pub fn len(&self) -> usize
        ensures { result ≡ length self.now.bytes }
    {
        self.bytes.as_slice().len()
    }

    /// How often a head was looked for: not more often than lines ended, and once.
    pub fn looks(&self) -> usize
        // Proved: A head is looked for at most once for each line that ended, and once more.
        // By `bound`, `value`.
        ensures value { result ≡ self.now.looks }
        ensures bound { result ≤ line_feeds self.now.bytes + 1 }
    {
        self.looks
    }

    /// How far it is.
    pub fn look(&self) -> Standing
        ensures { Stands self.now.most self.now.kind self.now.bytes result }
    {
        standing_of(self.kind, self.bytes.as_slice(), &self.found, self.most)
    }

    /// Takes a piece that came.
    pub fn push(&mut self, piece: &[u8]) -> Result<(), AllocError>
        ensures kind { self.new.kind ≡ self.old.kind }
        ensures most { self.new.most ≡ self.old.most }
        ensures ok { OnOk result (self.new.bytes ≡ self.old.bytes ++ piece.now) }
        ensures err { OnErr result (self.new ≡ self.old) }
    {
        self.bytes.extend_from_slice(piece)?;
        let bytes = self.bytes.as_slice();
        if wants_look(&self.found, bytes, piece) {
            self.found = found_in(self.kind, bytes, self.most);
            self.looks += 1;
        }
        Ok(())
    }

    /// Makes one read of at most so many bytes, and takes what came. At an `Err`, where memory runs
    /// out, what was read is lost: the reader is given up.
    pub fn read_from<R: Read>(
        &mut self,
        reader: &mut Counted<R>,
        buffer: &mut [u8],
        room: usize,
    ) -> Result<Arrival, AllocError>
        // Wants: room for a byte or more, and a reader whose calls are still counted.
        requires buffer { 0 < length buffer.old }
        requires room { 0 < room }
        requires calls { reader.old.calls < 2 ^ 64 - 1 }
        // Proved: One read of a message in the making takes no more than is asked for, and tells
        // what it gave: a read that would block is no end and no failure.
        // By `read`, `ok`, `err`.
        ensures read { IfOk result (IsRead reader.old reader.new) }
        ensures ok { IfOk result (making.Arrives room (R.remaining reader.old.inner)
            (R.remaining reader.new.inner) self.old self.new) }
        ensures err { OnErr result (self.new ≡ self.old) }
    {
        let size = usize::min(buffer.len(), room);
        let piece = &mut buffer[..size];
        match reader.read(piece) {
            Ok(0) => Ok(Arrival::Ended),
            Ok(count) => {
                self.push(&piece[..count])?;
                Ok(Arrival::Came)
            }
            Err(error) => Ok(match error.kind() {
                ErrorKind::WouldBlock => Arrival::NotYet,
                ErrorKind::Interrupted => Arrival::Again,
                _ => Arrival::Failed,
            }),
        }
    }

    /// The message itself, which is whole.
    pub fn into_received(self, alloc: Global, whole: WholeMessage) -> Result<Received, AllocError>
        // Wants: a message that `look` told to be whole.
        requires { IsWhole self.most self.kind self.bytes whole }
        // Proved: What a message in the making says, once it is whole, is its head, method,
        // target, body and status.
        ensures { IfOk result (λ message. Says self.most self.kind self.bytes message.status
            message.method message.head.items message.target.items message.body) }
    {
        let bytes = self.bytes.as_slice();
        let head = Vec::from_slice(alloc, &bytes[..whole.start])?;
        let target = Vec::from_slice(alloc, whole.target.of(bytes))?;
        Ok(Received {
            status: whole.status,
            method: whole.method,
            head,
            target,
            body: Body::new(self.bytes, whole.start, whole.end),
        })
    }
}
