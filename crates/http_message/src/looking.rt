//! Heads as HTTP/1.0 and HTTP/1.1 write them (RFC 9112), within limits of our own.

ghost use Rattle.std.specs.Prelude.{◌≡◌, ◌<◌, ◌≤◌, ℕ, List, ◌++◌, length};
ghost use Rattle.http_message.specs.Head.{Head, StartsWith, BeginsWith, HasNoStart, HasNoHead};
ghost use Rattle.http_message.specs.Head.{IfHead, IsToldOf, IsBounded};
ghost use Rattle.http_message.specs.declared.kind.Kind.TheVariants as kinds;
ghost use Rattle.http_message.specs.declared.look.Look.TheVariants as looks;

use crate::expect::expects_continue;
use crate::head_says::HeadFacts;
use crate::kind::Kind;
use crate::look::Look;
use crate::methods::{Methods, method_of};
use crate::says::says;
use crate::start::Start;
use httparse::Status;
use httparse::spans::{EMPTY_HEADER_SPAN, Span, parse_request, parse_response};

/// How many bytes a head has at most.
pub const MAX_HEAD_BYTES: usize = 8_192;

/// How many fields a head has at most.
pub const MAX_FIELDS: usize = 64;

// Where what a response hasn't stands.
const NOWHERE: Span = Span { start: 0, end: 0 };

fn look_for_request(methods: Methods, bytes: &[u8], most: u32) -> Look
    ensures head { IfHead result (λ told. (head : Head) × StartsWith (kinds.Request methods)
        bytes.now head × IsToldOf most bytes.now head told) }
    ensures bound { IfHead result (IsBounded most (length bytes.now)) }
    ensures part { result ≡ looks.Part → HasNoStart (kinds.Request methods) bytes.now }
    ensures never { result ≡ looks.Never
        → (more : List ℕ) → HasNoStart (kinds.Request methods) (bytes.now ++ more) }
{
    let mut fields = [EMPTY_HEADER_SPAN; MAX_FIELDS];
    match parse_request(bytes, &mut fields) {
        Ok(Status::Complete(head)) => {
            let method = method_of(methods, head.method.of(bytes));
            let start = Start::Request {
                taken: method,
                wants_host: head.version == 1,
            };
            Look::Head(HeadFacts {
                size: head.len,
                code: 0,
                method,
                target: head.path,
                says: says(start, bytes, &fields[..head.headers], most),
                expects_continue: expects_continue(start, bytes, &fields[..head.headers]),
            })
        }
        Ok(Status::Partial) => Look::Part,
        Err(_) => Look::Never,
    }
}

fn look_for_response(bytes: &[u8], most: u32) -> Look
    ensures head { IfHead result (λ told. (head : Head) × StartsWith kinds.Response bytes.now head
        × IsToldOf most bytes.now head told) }
    ensures bound { IfHead result (IsBounded most (length bytes.now)) }
    ensures part { result ≡ looks.Part → HasNoStart kinds.Response bytes.now }
    ensures never { result ≡ looks.Never
        → (more : List ℕ) → HasNoStart kinds.Response (bytes.now ++ more) }
{
    let mut fields = [EMPTY_HEADER_SPAN; MAX_FIELDS];
    match parse_response(bytes, &mut fields) {
        Ok(Status::Complete(head)) => Look::Head(HeadFacts {
            size: head.len,
            code: head.code,
            method: None,
            target: NOWHERE,
            says: says(Start::Response, bytes, &fields[..head.headers], most),
            expects_continue: false,
        }),
        Ok(Status::Partial) => Look::Part,
        Err(_) => Look::Never,
    }
}

// Looks at all of the bytes.
fn look_in(kind: Kind, bytes: &[u8], most: u32) -> Look
    ensures head { IfHead result (λ told. (head : Head) × StartsWith kind bytes.now head
        × IsToldOf most bytes.now head told) }
    ensures bound { IfHead result (IsBounded most (length bytes.now)) }
    ensures part { result ≡ looks.Part → HasNoStart kind bytes.now }
    ensures never { result ≡ looks.Never → (more : List ℕ) → HasNoStart kind (bytes.now ++ more) }
{
    match kind {
        Kind::Request(methods) => look_for_request(methods, bytes, most),
        Kind::Response => look_for_response(bytes, most),
    }
}

/// What stands at the front of the bytes: a head, no head yet, or no head whatever bytes follow.
/// A head has at most `MAX_HEAD_BYTES` and `MAX_FIELDS`, its lines may end with LF alone, and empty
/// lines may stand before it.
pub(crate) fn look_for_head(kind: Kind, bytes: &[u8], most: u32) -> Look
    ensures head { IfHead result (λ told. (head : Head) × BeginsWith kind bytes.now head
        × IsToldOf most bytes.now head told) }
    ensures bound { IfHead result (IsBounded most (length bytes.now)) }
    ensures part { result ≡ looks.Part → HasNoHead kind bytes.now }
    ensures never { result ≡ looks.Never → (more : List ℕ) → HasNoHead kind (bytes.now ++ more) }
    ensures full { MAX_HEAD_BYTES ≤ length bytes.now → ¬ (result ≡ looks.Part) }
{
    if bytes.len() < MAX_HEAD_BYTES {
        return look_in(kind, bytes, most);
    }
    match look_in(kind, &bytes[..MAX_HEAD_BYTES], most) {
        Look::Head(told) => Look::Head(told),
        Look::Part | Look::Never => Look::Never,
    }
}
