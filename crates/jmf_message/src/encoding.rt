//! Writing messages.

ghost use Rattle.std.specs.Prelude.{◌≡◌, Ok, true, IfOk, OnOk};
ghost use Rattle.serde_json.specs.Data.{no_members};
ghost use Rattle.serde_json.specs.Written.{compact_text};
ghost use Rattle.json_text.specs.Printed.{AreMembersPrinted, IsPrinted};
ghost use Rattle.ticket_items.specs.Names.{is_name};
ghost use Rattle.ticket_items.specs.SpawnId.{is_spawn_number};
ghost use Rattle.jmf_message.specs.Decoded.{IsDecodedAs};
ghost use Rattle.jmf_message.specs.Known.{IsKnown};
ghost use Rattle.controller.specs.Words.{may_be_sent};
ghost use Rattle.jmf_message.specs.Written as written;

use crate::items::print_item;
use crate::jmf::jmf_item;
use controller::{Body, Message};
use json::Writer;
use json_profile::print_part;
use json_text::written_text;
use std::alloc::{AllocError, Global};

/// How many bytes a text has room for in the beginning.
const ROOM: usize = 1024;

/// Prints the part of a message, if it has one. It is read again.
fn print_part_of(alloc: Global, out: &mut Writer, body: &Body) -> Result<(), AllocError>
    ensures printed { OnOk result
        (AreMembersPrinted (written.put_part body.now no_members) out.old out.new) }
    ensures known { OnOk result (IsKnown body.now) }
{
    match body {
        Body::Submit(part) | Body::Return(part) => {
            out.key("JDF")?;
            print_part(alloc, out, part)
        }
        Body::Abort(_) | Body::Answer { .. } => Ok(()),
    }
}

/// Prints the document of a message. Its sender and its receiver are ids, its spawn has a number
/// that one may have, and its part is read again.
fn print_document(alloc: Global, out: &mut Writer, message: &Message) -> Result<(), AllocError>
    ensures printed { OnOk result
        (IsPrinted (written.message_data message.now) out.old out.new) }
    ensures sender { OnOk result (is_name message.now.sender ≡ true) }
    ensures receiver { OnOk result (is_name message.now.receiver ≡ true) }
    ensures valid { OnOk result
        (is_spawn_number (written.spawn_said (written.family_of message.now.body)) ≡ true) }
    ensures known { OnOk result (IsKnown message.now.body) }
{
    let jmf = jmf_item(alloc, message)?;
    out.begin_object()?;
    print_part_of(alloc, out, &message.body)?;
    out.key("JMF")?;
    print_item(out, &jmf)?;
    out.end_object()
}

/// The text of a message: compact JSON, which `decode` reads as that message. The number of a
/// refusal in it is one of 1 to 999.
pub fn encode(alloc: Global, message: &Message) -> Result<Vec<u8>, AllocError>
    // Wants: a message that may be sent: its reason is one of 1 to 999.
    requires { may_be_sent message.now.body ≡ true }
    // Proved: A message's text is that of its form, and read as the same message.
    // By `text`, `again`.
    ensures text { IfOk result (λ b. b.items ≡ compact_text (written.message_data message.now)) }
    ensures again { IfOk result (λ b. IsDecodedAs b.items (Ok message.now)) }
{
    let mut out = Writer::new(Vec::with_capacity(alloc, ROOM)?);
    print_document(alloc, &mut out, message)?;
    Ok(written_text(out))
}
