//! From the bytes of the input to the bytes of the output.

ghost use Rattle.std.specs.Prelude.{◌≡◌, ◌++◌, IfErr, IfOk, OnOk, Ok};
ghost use Rattle.document_commands.specs.CheckCommand.Readers.{IsAnswer, bare_answer};
ghost use Rattle.document_commands.specs.EditCommand.Document.{IsReadAs, IsReadRaw, IsRefusalOf};
ghost use Rattle.document_commands.specs.EditCommand.Document.{document_read};
ghost use Rattle.document_commands.specs.declared.edit_command.document.Document.{Document};
ghost use Rattle.document_commands.specs.EditCommand.Run.{IsEdited, IsOutput, ticket_text};

use crate::edit_command::document::Document;
use crate::edit_command::raw_document::RawDocument;
use crate::edit_command::run::run_edits;
use json_items::Raw;
use json_profile::push_ticket_text;
use json_source::{Scratch, tree_of};
use std::alloc::{AllocError, Global};
use std::mem;
use streams::Output;
use ticket_tree::{Refusal, Ticket};

/// Appends the text of a ticket, and the end of its line.
fn push_ticket(alloc: Global, text: &mut Vec<u8>, ticket: &Ticket) -> Result<(), AllocError>
    ensures { OnOk result (text.new.items ≡ text.old.items ++ ticket_text ticket.now) }
{
    push_ticket_text(alloc, text, ticket)?;
    text.push(b'\n')?;
    Ok(())
}

/// A ticket after edits, the line of each, and whether one was refused.
#[derive(Drop)]
struct EditedTicket {
    ticket: Ticket,
    lines: Vec<u8>,
    refused: bool,
}

/// The ticket of a document after its edits. The output has room for so many bytes at once. Refuses
/// `Memory` alone.
fn edited_document(alloc: Global, document: Document, room: usize) -> Result<EditedTicket, Refusal>
    ensures done { IfOk result (λ o. IsEdited document o.lines.items o.ticket o.refused) }
    ensures memory { IfErr result (λ e. e ≡ Refusal.Memory) }
{
    let Document { at, edits, ticket } = document;
    let mut ticket = ticket;
    let mut lines = Vec::with_capacity(alloc, room)?;
    let refused = run_edits(alloc, &mut ticket, at, edits.into_vec(), &mut lines)?;
    Ok(EditedTicket {
        ticket,
        lines,
        refused,
    })
}

/// The document that an input is by its members and their kinds, of which the ids, names and texts
/// are valid. Refuses the first of `NotJson`, `NotProfile`, `BadId` and `BadText` that stands in
/// it, and `Memory`.
fn raw_document_in(alloc: Global, input: &[u8]) -> Result<RawDocument, Refusal>
    ensures found { IfOk result (λ raw. IsReadRaw input.now (Ok raw)) }
    ensures refused { IfErr result (IsRefusalOf input.now) }
{
    let mut scratch = Scratch::new(alloc);
    let tree = tree_of(alloc, input, &mut scratch)?;
    RawDocument::of(alloc, tree)?
}

/// The document that an input is, or the first refusal of it. The input is given back once all is
/// found of it, before the rows of its ticket are looked at together.
fn read_document(alloc: Global, input: Vec<u8>) -> Result<Document, Refusal>
    ensures done { IfOk result (λ document. IsReadAs input.items (Ok document)) }
    ensures refused { IfErr result (IsRefusalOf input.items) }
{
    let RawDocument { at, edits, ticket } = raw_document_in(alloc, input.as_slice())?;
    drop(input);
    let ticket = ticket.build(alloc)?;
    Ok(Document { at, edits, ticket })
}

/// What the reader of documents answers: nothing where it takes the input, or else the first
/// refusal of it.
#[tactic(auto, using(crate::proofs::Readers::bared))]
pub(crate) fn check_document(alloc: Global, input: &[u8]) -> Result<(), Refusal>
    ensures { IsAnswer (λ d. bare_answer (document_read d)) input.now result }
{
    read_document(alloc, Vec::from_slice(alloc, input)?)?;
    Ok(())
}

/// The edited ticket of an input, or the first refusal of it. The output has room for twice the
/// bytes of the input at once: one that grows is copied, and the process keeps where it lay.
fn edited_ticket(alloc: Global, input: Vec<u8>) -> Result<EditedTicket, Refusal>
    ensures done { IfOk result (λ o. (document : Document) × IsReadAs input.items (Ok document)
        × IsEdited document o.lines.items o.ticket o.refused) }
    ensures refused { IfErr result (IsRefusalOf input.items) }
{
    let room = input.len().saturating_mul(2);
    let document = read_document(alloc, input)?;
    edited_document(alloc, document, room)
}

/// What `edit` writes for an input, or the first refusal of it: `NotJson`, `NotProfile`, `BadId`,
/// `BadText`, `ReservedStatus`, `DuplicateId`, `TooDeep`, `UnresolvedLink`; `Memory` may come
/// before any. The ticket isn't given back.
pub fn edit_output(alloc: Global, input: Vec<u8>) -> Result<Output, Refusal>
    ensures done { IfOk result (λ o. IsOutput input.items o.text.items o.refused) }
    ensures refused { IfErr result (IsRefusalOf input.items) }
{
    let EditedTicket {
        ticket,
        lines,
        refused,
    } = edited_ticket(alloc, input)?;
    let mut text = lines;
    push_ticket(alloc, &mut text, &ticket)?;
    // The process ends behind this, which gives all of it back at once.
    mem::forget(ticket);
    Ok(Output { text, refused })
}
