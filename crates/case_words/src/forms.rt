//! Forms that are read, and of which a copy is written.

ghost use Rattle.std.specs.Prelude.{◌≡◌, true, IfOk};
ghost use Rattle.controller.specs.Words.{may_be_sent};

use jmf_message::{Message, decode, encode, id_of};
use json_profile::{
    edit_of, edit_value, part_of, part_value, text_of, ticket_of, ticket_value, value_of,
};
use serde_json::Value;
use std::alloc::{AllocError, Global};
use streams::Refused;
use ticket_tree::{Duplicate, Edit, Part, Refusal, Ticket};

/// The text on a line.
pub fn line(mut text: Vec<u8>) -> Result<Vec<u8>, AllocError> {
    text.extend_from_slice(b"\n")?;
    Ok(text)
}

/// The text of a value on a line.
pub fn line_of(alloc: Global, value: &Value) -> Result<Vec<u8>, AllocError> {
    line(text_of(alloc, value)?)
}

/// `value`: any JSON.
pub fn value(alloc: Global, text: &[u8]) -> Result<Vec<u8>, Refused> {
    Ok(line_of(alloc, &value_of(alloc, text)?)?)
}

/// What a value of its form stands for.
pub trait Form: Duplicate {
    /// Reads the value that it is in its form.
    fn read(alloc: Global, value: &Value) -> Result<Self, Refusal>;

    /// The value that it is in its form.
    fn written(&self, alloc: Global) -> Result<Value, AllocError>;
}

impl Form for Ticket {
    fn read(alloc: Global, value: &Value) -> Result<Ticket, Refusal> {
        ticket_of(alloc, value)
    }

    fn written(&self, alloc: Global) -> Result<Value, AllocError> {
        ticket_value(alloc, self)
    }
}

impl Form for Edit {
    fn read(alloc: Global, value: &Value) -> Result<Edit, Refusal> {
        edit_of(alloc, value)
    }

    fn written(&self, alloc: Global) -> Result<Value, AllocError> {
        edit_value(alloc, self)
    }
}

impl Form for Part {
    fn read(alloc: Global, value: &Value) -> Result<Part, Refusal> {
        part_of(alloc, value)
    }

    fn written(&self, alloc: Global) -> Result<Value, AllocError> {
        part_value(alloc, self)
    }
}

/// `ticket`, `change` and `part`: a copy of what is read. Functions over any form are proved once,
/// and what they hold isn't taken apart there.
pub fn again<F: Form>(alloc: Global, text: &[u8]) -> Result<Vec<u8>, Refused> {
    let read = F::read(alloc, &value_of(alloc, text)?)?;
    let copy = read.copy(alloc)?;
    Ok(line_of(alloc, &copy.written(alloc)?)?)
}

/// What is sent as a text, and has an ID.
pub trait Sent: Duplicate {
    /// That it may be sent.
    ghost is_sendable: { Self → Type 0 };

    /// Reads the text of what was sent.
    fn decoded(alloc: Global, text: &[u8]) -> Result<Self, Refusal>
        ensures { IfOk result (λ sent. is_sendable sent) };

    /// The text that it is sent as.
    fn encoded(&self, alloc: Global) -> Result<Vec<u8>, AllocError>
        requires { is_sendable self.now };

    /// Its ID.
    fn id(&self, alloc: Global) -> Result<String, AllocError>;
}

impl Sent for Message {
    ghost is_sendable = { λ message. may_be_sent message.body ≡ true };

    fn decoded(alloc: Global, text: &[u8]) -> Result<Message, Refusal> {
        decode(alloc, text)
    }

    fn encoded(&self, alloc: Global) -> Result<Vec<u8>, AllocError> {
        encode(alloc, self)
    }

    fn id(&self, alloc: Global) -> Result<String, AllocError> {
        id_of(alloc, self)
    }
}

/// `message`: a copy of what is read.
pub fn sent_again<S: Sent>(alloc: Global, text: &[u8]) -> Result<Vec<u8>, Refused> {
    let sent = S::decoded(alloc, text)?;
    let copy = sent.copy(alloc)?;
    Ok(line(copy.encoded(alloc)?)?)
}

/// `id`: the ID of what is read.
pub fn id_line<S: Sent>(alloc: Global, text: &[u8]) -> Result<Vec<u8>, Refused> {
    let sent = S::decoded(alloc, text)?;
    Ok(line(sent.id(alloc)?.into_bytes())?)
}
