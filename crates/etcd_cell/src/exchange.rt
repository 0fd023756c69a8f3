//! One request over a stream, and the response to it.

ghost use Rattle.std.specs.Prelude.{◌≡◌, ◌⊎◌, true, Err, IfOk};
ghost use Rattle.http_message.specs.Texts as texts;
ghost use Rattle.http_message.specs.Texts.{request_to};
ghost use Rattle.etcd_wire.specs.declared.no_answer.NoAnswer.TheVariants.{Unknown};
ghost use Rattle.etcd_cell.specs.Exchange.{Hears, IsAnswered, IsUnasked, IsUnheard};

use etcd_wire::{NoAnswer, Response, response_in};
use http_message::send_to;
use std::alloc::Global;
use std::io::{Read, Write};
use streams::{Counted, Fault, Refused, read_input};

/// Posts a body to a target of a host, and reads all that comes then.
fn exchange<S: Read + Write>(
    alloc: Global,
    stream: &mut Counted<S>,
    host: &str,
    target: &str,
    body: &[u8],
) -> Result<Vec<u8>, NoAnswer>
    requires host { texts.is_word host.now ≡ true }
    requires target { texts.is_word target.now ≡ true }
    ensures ok { IfOk result (λ all. IsAnswered S.remaining S.contents stream.old stream.new
        (request_to host.now target.now body.now) all.items) }
    ensures unknown { result ≡ Err Unknown → IsUnasked S.remaining S.contents stream.old stream.new
        (request_to host.now target.now body.now) }
{
    match send_to(stream, host, target, body) {
        Ok(()) => match read_input(alloc, stream) {
            Ok(all) => Ok(all),
            Err(Fault::Input(Refused::Core(_))) => Err(NoAnswer::Memory),
            Err(_) => Err(NoAnswer::Unknown),
        },
        Err(_) => Err(NoAnswer::Unknown),
    }
}

/// Posts a body to a target of a host, and gives the response. Refuses `Unknown` where the request
/// can't be written, or what comes can't be read, or is no response that is whole; and `Memory`.
pub(crate) fn post<S: Read + Write>(
    alloc: Global,
    stream: &mut Counted<S>,
    host: &str,
    target: &str,
    body: &[u8],
) -> Result<Response, NoAnswer>
    requires host { texts.is_word host.now ≡ true }
    requires target { texts.is_word target.now ≡ true }
    ensures ok { IfOk result (λ r. Hears S.remaining S.contents stream.old stream.new
        (request_to host.now target.now body.now)
        (λ status body. (status ≡ r.status) × (body ≡ r.body.items))) }
    ensures unknown { result ≡ Err Unknown → IsUnheard S.remaining S.contents stream.old stream.new
        (request_to host.now target.now body.now) }
{
    match exchange(alloc, stream, host, target, body) {
        Ok(all) => response_in(alloc, all.as_slice()),
        Err(fault) => Err(fault),
    }
}
