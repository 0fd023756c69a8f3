//! What the reader of each kind of document answers.

ghost use Rattle.json_items.specs.TicketForm.{ticket_read};
ghost use Rattle.jmf_message.specs.Decoded.{message_read};
ghost use Rattle.controller_form.specs.Openings.OpeningForm.{opening_read};
ghost use Rattle.controller_form.specs.Orders.MasterForm.{master_order_read};
ghost use Rattle.controller_form.specs.Orders.WorkerForm.{worker_order_read};
ghost use Rattle.world_script.specs.Script.{script_read};
ghost use Rattle.stored_state.specs.Opened.{any_state_read};
ghost use Rattle.document_commands.specs.EditCommand.Document.{document_read};
ghost use Rattle.document_commands.specs.CheckCommand.Readers.{IsAnswer, answer_of_kind};
ghost use Rattle.document_commands.specs.CheckCommand.Readers.{bare_answer};
ghost use Rattle.document_commands.specs.CheckCommand.Readers.{order_read};
ghost use Rattle.json_items.specs.Validation.{Answers};

use crate::edit_command::check_document;
use controller_form::{StateForm, master_order_of, opening_of, worker_order_of};
use fault_finder::Kind;
use jmf_message::decode;
use json_items::Raw;
use json_profile::RawTicket;
use json_source::{Scratch, Source, tree_of};
use master_core::Master;
use std::alloc::Global;
use stored_state::{Kind as Controllers, kind_of};
use ticket_tree::Refusal;
use worker_core::Worker;
use world_script::script_of;

/// What the reader of tickets answers.
#[tactic(auto, using(crate::proofs::Readers::bared))]
fn read_ticket(alloc: Global, bytes: &[u8]) -> Result<(), Refusal>
    ensures { IsAnswer (λ d. bare_answer (ticket_read d)) bytes.now result }
{
    let mut scratch = Scratch::new(alloc);
    let tree = tree_of(alloc, bytes, &mut scratch)?;
    RawTicket::read_whole(alloc, &tree)?;
    Ok(())
}

/// What the reader of a master's orders answers.
fn master_order_in<S: Source>(alloc: Global, value: &S) -> Result<(), Refusal>
    ensures { Answers result (bare_answer (master_order_read (S.content value.now))) }
{
    master_order_of(alloc, value)?;
    Ok(())
}

/// What the reader of a worker's orders answers.
fn worker_order_in<S: Source>(alloc: Global, value: &S) -> Result<(), Refusal>
    ensures { Answers result (bare_answer (worker_order_read (S.content value.now))) }
{
    worker_order_of(alloc, value)?;
    Ok(())
}

/// What the reader of a master's orders answers, or where it is of another form that of a worker's.
fn order_in<S: Source>(alloc: Global, value: &S) -> Result<(), Refusal>
    ensures { Answers result (order_read (S.content value.now)) }
{
    match master_order_in(alloc, value) {
        Err(Refusal::NotProfile) => worker_order_in(alloc, value),
        answer => answer,
    }
}

/// What the reader of orders answers.
fn read_order(alloc: Global, bytes: &[u8]) -> Result<(), Refusal>
    ensures { IsAnswer order_read bytes.now result }
{
    let mut scratch = Scratch::new(alloc);
    let tree = tree_of(alloc, bytes, &mut scratch)?;
    order_in(alloc, &tree)
}

/// What the reader of messages answers.
#[tactic(auto, using(crate::proofs::Readers::bared))]
fn read_message(alloc: Global, bytes: &[u8]) -> Result<(), Refusal>
    ensures { IsAnswer (λ d. bare_answer (message_read d)) bytes.now result }
{
    decode(alloc, bytes)?;
    Ok(())
}

/// What the reader of scripts answers.
#[tactic(auto, using(crate::proofs::Readers::bared))]
fn read_script(alloc: Global, bytes: &[u8]) -> Result<(), Refusal>
    ensures { IsAnswer (λ d. bare_answer (script_read d)) bytes.now result }
{
    script_of(alloc, bytes)?;
    Ok(())
}

/// What the reader of openings answers.
#[tactic(auto, using(crate::proofs::Readers::bared))]
fn read_opening(alloc: Global, bytes: &[u8]) -> Result<(), Refusal>
    ensures { IsAnswer (λ d. bare_answer (opening_read d)) bytes.now result }
{
    opening_of(alloc, bytes)?;
    Ok(())
}

/// What the reader of a value's states answers.
fn state_in<S: Source>(alloc: Global, value: &S) -> Result<(), Refusal>
    ensures { Answers result (bare_answer (any_state_read (S.content value.now))) }
{
    match kind_of(value)? {
        Controllers::Master => {
            Master::state_of(alloc, value)?;
            Ok(())
        }
        Controllers::Worker => {
            Worker::state_of(alloc, value)?;
            Ok(())
        }
    }
}

/// What the reader of states answers.
fn read_state(alloc: Global, bytes: &[u8]) -> Result<(), Refusal>
    ensures { IsAnswer (λ d. bare_answer (any_state_read d)) bytes.now result }
{
    let mut scratch = Scratch::new(alloc);
    let tree = tree_of(alloc, bytes, &mut scratch)?;
    state_in(alloc, &tree)
}

/// What the reader of documents of a kind answers: nothing where it takes the bytes, or else what
/// it refuses them for.
pub(crate) fn read(alloc: Global, kind: Kind, bytes: &[u8]) -> Result<(), Refusal>
    ensures { IsAnswer (answer_of_kind kind) bytes.now result }
{
    match kind {
        Kind::Ticket => read_ticket(alloc, bytes),
        Kind::Edits => check_document(alloc, bytes),
        Kind::Order => read_order(alloc, bytes),
        Kind::Message => read_message(alloc, bytes),
        Kind::Script => read_script(alloc, bytes),
        Kind::Opening => read_opening(alloc, bytes),
        Kind::State => read_state(alloc, bytes),
    }
}
