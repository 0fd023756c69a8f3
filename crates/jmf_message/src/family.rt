ghost use Rattle.std.specs.Prelude.{◌≡◌, true, IfOk, IfSome, OnOk, option_and_then};
ghost use Rattle.ticket_items.specs.SpawnId.{is_spawn_number};
ghost use Rattle.jmf_message.specs.Items.{item_data};
ghost use Rattle.jmf_message.specs.Family as saying;
ghost use Rattle.jmf_message.specs.Written as written;

use crate::commands::command_item;
use crate::items::{Item, says};
use crate::responses::response_item;
use controller::{Body, Command, QueueStatus};
use json_source::Source;
use std::alloc::{AllocError, Global};
use ticket_tree::SpawnId;

/// What a JMF object says: a body without its part.
#[derive(Clone, Copy)]
pub enum Family {
    /// A command of a spawn.
    Command(Command, SpawnId),
    /// The answer to one.
    Answer(Command, SpawnId, Result<QueueStatus, u16>),
}

/// What is said by a body, without its part.
pub fn family_of(body: &Body) -> Family
    ensures { result ≡ written.family_of body.now }
{
    match body {
        Body::Submit(part) => Family::Command(Command::Submit, part.spawn_id()),
        Body::Return(part) => Family::Command(Command::Return, part.spawn_id()),
        Body::Abort(spawn_id) => Family::Command(Command::Abort, *spawn_id),
        Body::Answer {
            of,
            spawn_id,
            result,
        } => Family::Answer(*of, *spawn_id, *result),
    }
}

/// The command or the response by which a sender says this.
pub fn family_item(alloc: Global, sender: &str, said: &Family) -> Result<Item, AllocError>
    ensures value { IfOk result (λ item. item_data item ≡ written.said_data sender.now said.now) }
    ensures valid { OnOk result (is_spawn_number (written.spawn_said said.now) ≡ true) }
{
    match said {
        Family::Command(asked, spawn) => command_item(alloc, sender, *asked, *spawn),
        Family::Answer(asked, spawn, told) => response_item(alloc, *asked, *spawn, *told),
    }
}

/// What a sender says, if a value is what is written for it.
pub fn confirmed_family<S: Source>(
    alloc: Global,
    sender: &str,
    said: Option<Family>,
    value: &S,
) -> Result<Option<Family>, AllocError>
    requires { IfSome said (λ s. saying.can_be_sent s ≡ true) }
    ensures value { IfOk result (λ found. found
        ≡ option_and_then (saying.confirmed_family sender.now (S.content value.now)) said) }
    ensures sent { IfOk result (λ found. IfSome found (λ s. saying.can_be_sent s ≡ true)) }
{
    let Some(said) = said else {
        return Ok(None);
    };
    let item = family_item(alloc, sender, &said)?;
    Ok(says(value, &item).then_some(said))
}
