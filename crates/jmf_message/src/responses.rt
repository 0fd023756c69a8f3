//! Responses of JMF.

ghost use Rattle.std.specs.Prelude.{◌≡◌, is_some, true, IfOk, IfSome};
ghost use Rattle.std.specs.Option.{option_map};
ghost use Rattle.controller.specs.Words.{is_told};
ghost use Rattle.ticket_items.specs.SpawnId.{is_spawn_number};
ghost use Rattle.json_items.specs.Attributes.{attrs_data};
ghost use Rattle.jmf_message.specs.Form as forms;
ghost use Rattle.jmf_message.specs.Items.{item_data};
ghost use Rattle.jmf_message.specs.Family as said;
ghost use Rattle.jmf_message.specs.Written as written;

use crate::family::Family;
use crate::ids::{answer_id, command_id};
use crate::items::{Item, are_texts, is_of_texts, number, object, text};
use controller::{Command, QueueStatus};
use json_items::{number_under, text_under};
use json_source::Source;
use std::alloc::{AllocError, Global};
use ticket_tree::SpawnId;

/// The members of a response.
const RESPONSE_MEMBERS: &[&str] = &["ID", "QueueEntry", "Reason", "ReturnCode", "Type", "refID"];

/// Whether a value is a response by its members and their kinds alone. Its queue entry may be
/// absent.
#[tactic(auto, unfolding(crate::specs::Form::is_response))]
pub fn is_response<S: Source>(value: &S) -> bool
    ensures { result ≡ forms.is_response (S.content value.now) }
{
    value.has_only(RESPONSE_MEMBERS)
        && are_texts(value, &["ID", "Type", "refID"])
        && number_under(value, "Reason").is_some()
        && number_under(value, "ReturnCode").is_some()
        && value
            .member("QueueEntry")
            .is_none_or(|entry| is_of_texts(entry, &["QueueEntryID", "Status"]))
}

/// What stands behind the front of a text, if the text begins so.
fn behind<'a>(front: &str, text: &'a str) -> Option<&'a str>
    ensures { option_map (λ rest. rest.now) result ≡ said.behind front.now text.now }
{
    text.strip_prefix(front)
}

/// The reason of a refusal, if the number is one.
fn refusal_in(reason: u64) -> Option<Result<QueueStatus, u16>>
    ensures value { result ≡ said.refusal_in reason }
    ensures told { IfSome result (λ told. is_told told ≡ true) }
{
    if reason < 1 || 999 < reason {
        return None;
    }
    Some(Err(reason as u16))
}

/// The Status of a response's queue entry, or the reason of a refusal.
fn response_in<S: Source>(response: &S) -> Option<Result<QueueStatus, u16>>
    ensures value { result ≡ said.response_in (S.content response.now) }
    ensures told { IfSome result (λ told. is_told told ≡ true) }
{
    match response.member("QueueEntry") {
        Some(entry) => Some(Ok(QueueStatus::of_word(text_under(entry, "Status")?)?)),
        None => refusal_in(number_under(response, "Reason")?),
    }
}

/// What such a response tells of the command that its Type names, and of the spawn that its refID
/// does. It may be sent.
pub fn answer_in<S: Source>(response: &S) -> Option<Family>
    ensures value { result ≡ said.answer_in (S.content response.now) }
    ensures sent { IfSome result (λ s. said.can_be_sent s ≡ true) }
{
    let asked = Command::of_type(text_under(response, "Type")?)?;
    let number = behind(asked.row().mark, text_under(response, "refID")?)?;
    let spawn = SpawnId::parse(number).ok()?;
    Some(Family::Answer(asked, spawn, response_in(response)?))
}

/// The queue entry of a spawn.
fn entry_item(alloc: Global, spawn: SpawnId, status: QueueStatus) -> Result<Item, AllocError>
    ensures { IfOk result (λ item. item_data item
        ≡ attrs_data (written.entry_texts spawn status)) }
{
    let entry = ("QueueEntryID", text(alloc, spawn.to_id(alloc)?.as_str())?);
    let status = ("Status", text(alloc, status.word())?);
    Ok(object(vec![in alloc; entry, status]?))
}

/// The response to the command of a spawn, with this result. Its members stand in the byte order of
/// their names.
pub fn response_item(
    alloc: Global,
    asked: Command,
    spawn: SpawnId,
    told: Result<QueueStatus, u16>,
) -> Result<Item, AllocError>
    ensures value { IfOk result (λ item. item_data item
        ≡ written.response_data asked spawn told) }
    ensures valid { is_spawn_number spawn ≡ true }
{
    let id = ("ID", text(alloc, answer_id(alloc, asked, spawn)?.as_str())?);
    let kind = ("Type", text(alloc, asked.row().word)?);
    let reference = command_id(alloc, asked, spawn)?;
    let reference = ("refID", text(alloc, reference.as_str())?);
    match told {
        Ok(status) => {
            let entry = ("QueueEntry", entry_item(alloc, spawn, status)?);
            let reason = ("Reason", number(0));
            let code = ("ReturnCode", number(0));
            Ok(object(vec![in alloc; id, entry, reason, code, kind, reference]?))
        }
        Err(reason) => {
            let reason = ("Reason", number(u64::from(reason)));
            let code = ("ReturnCode", number(1));
            Ok(object(vec![in alloc; id, reason, code, kind, reference]?))
        }
    }
}
