//! The response that came of a request.

ghost use Rattle.std.specs.Prelude.{◌≡◌, ◌≢◌, ◌≤◌, ◌<◌, List, ℕ};
ghost use Rattle.std.specs.Prelude.{length, drop, Err, IfOk, IfSome, IsNone};
ghost use Rattle.http1.specs.declared.framing.Framing.{Framing};
ghost use Rattle.http1.specs.declared.framing.Framing.TheVariants.{UntilClose};
ghost use Rattle.etcd_wire.specs.Response.{HasBody, HasHead, Responds, limits};
ghost use Rattle.etcd_wire.specs.declared.no_answer.NoAnswer.TheVariants.{Unknown};

use crate::no_answer::NoAnswer;
use http1::Limits;
use http1::decode::{Decoded, Decoder};
use http1::fields::KnownFields;
use http1::framing::{Framing, MethodKind, response_framing};
use httparse::Status;
use httparse::spans::{EMPTY_HEADER_SPAN, ResponseSpans, parse_response};
use std::alloc::Global;

/// How many fields a head or a trailer has at most.
const MAX_FIELDS: usize = 64;

/// The status and the body of a response.
#[derive(Drop)]
pub struct Response {
    /// Its status.
    pub status: u16,
    /// Its body.
    pub body: Vec<u8>,
}

/// What the head of a response tells.
#[derive(Clone, Copy)]
struct Head {
    /// The status of the response.
    status: u16,
    /// How many bytes the head has.
    size: usize,
    /// How its body is framed.
    framing: Framing,
}

/// The limits of a body.
fn limits() -> Limits
    ensures { result ≡ limits }
{
    Limits {
        max_head_len: 16_384,
        max_extensions_len: 16_384,
        max_trailers_len: 16_384,
    }
}

/// What the head in front tells, if the response tells where it ends.
fn head_in(all: &[u8]) -> Option<Head>
    ensures some { IfSome result (λ h. HasHead all.now h.status h.framing (drop h.size all.now)) }
    ensures size { IfSome result (λ h. h.size ≤ length all.now) }
    ensures none { IsNone result → (status : ℕ) (framing : Framing) (behind : List ℕ)
        → HasHead all.now status framing behind → ⊥ }
{
    let mut fields = [EMPTY_HEADER_SPAN; MAX_FIELDS];
    let Ok(Status::Complete(head)) = parse_response(all, &mut fields) else {
        return None;
    };
    let known = KnownFields::from_spans(all, &fields[..head.headers]);
    match response_framing(MethodKind::Other, head.code, head.version, &known) {
        Ok(Framing::UntilClose) | Err(_) => None,
        Ok(framing) => Some(Head {
            status: head.code,
            size: head.len,
            framing,
        }),
    }
}

/// The body in front, if it is whole.
fn body_in(alloc: Global, framing: Framing, behind: &[u8]) -> Result<Vec<u8>, NoAnswer>
    requires { framing ≢ UntilClose }
    ensures ok { IfOk result (λ body. HasBody framing behind.now body.items) }
    ensures unknown { result ≡ Err Unknown →
        (bytes : List ℕ) → HasBody framing behind.now bytes → ⊥ }
{
    let mut decoder = Decoder::new(framing, &limits());
    let mut trailers = [EMPTY_HEADER_SPAN; MAX_FIELDS];
    let mut body = Vec::new(alloc);
    let mut rest = behind;
    loop {
        match decoder.decode(rest, &mut trailers) {
            Ok(Decoded::Data(piece)) => {
                body.extend_from_slice(piece.of(rest))?;
                rest = &rest[piece.end..];
            }
            Ok(Decoded::End { .. }) => return Ok(body),
            Ok(Decoded::NeedMore(_)) => return Err(NoAnswer::Unknown),
            Err(_) => return Err(NoAnswer::Unknown),
        }
    }
}

/// The response to a POST that stands in front of these bytes, behind which nothing more comes.
/// Refuses `Unknown` where there is none that is whole, or that doesn't tell where it ends; and
/// `Memory`.
pub fn response_in(alloc: Global, all: &[u8]) -> Result<Response, NoAnswer>
    // Proved: Bytes are read as a response just where one stands in front of them, whole, as its
    // length or its chunks tell.
    // By `ok`, `unknown`.
    ensures ok { IfOk result (λ r. Responds all.now r.status r.body.items) }
    ensures unknown { result ≡ Err Unknown → (status : ℕ) (body : List ℕ)
        → Responds all.now status body → ⊥ }
{
    let Some(head) = head_in(all) else {
        return Err(NoAnswer::Unknown);
    };
    match body_in(alloc, head.framing, &all[head.size..]) {
        Ok(body) => Ok(Response {
            status: head.status,
            body,
        }),
        Err(fault) => Err(fault),
    }
}
