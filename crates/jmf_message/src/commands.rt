//! Commands of JMF.

ghost use Rattle.std.specs.Prelude.{◌≡◌, false, map, true, IfOk, IfSome};
ghost use Rattle.std.specs.Option.{option_map_or};
ghost use Rattle.serde_json.specs.Find.{get};
ghost use Rattle.ticket_items.specs.SpawnId.{is_spawn_number};
ghost use Rattle.json_items.specs.Attributes.{attrs_data};
ghost use Rattle.controller.specs.Words.{row_of};
ghost use Rattle.jmf_message.specs.Form as forms;
ghost use Rattle.jmf_message.specs.Items.{item_data};
ghost use Rattle.jmf_message.specs.Family as said;
ghost use Rattle.jmf_message.specs.Written as written;

use crate::family::Family;
use crate::ids::command_id;
use crate::items::{Item, are_texts, is_of_texts, object, text};
use controller::Command;
use json_items::text_under;
use json_source::Source;
use std::alloc::{AllocError, Global};
use ticket_tree::SpawnId;

/// A URL that names no place.
const NO_PLACE: &str = "cid:jdf";

/// The names of a command's params.
fn params_names(asked: Command) -> &'static [&'static str]
    ensures { map (λ n. n.now) result.now ≡ forms.params_names asked }
{
    match asked {
        Command::Submit => &["QueueEntryID", "ReturnJMF", "ReturnURL", "URL"],
        Command::Return => &["QueueEntryID", "URL"],
        Command::Abort => &["QueueEntryID"],
    }
}

/// Whether such params stand among a command's members.
fn has_params<S: Source>(command: &S, asked: Command) -> bool
    ensures { result ≡ option_map_or (forms.is_of_texts (forms.params_names asked))
        (get (row_of asked).params (S.content command.now)) false }
{
    let params = command.member(asked.row().params);
    params.is_some_and(|params| is_of_texts(params, params_names(asked)))
}

/// Whether a value is this command by its members and their kinds alone.
#[tactic(auto, unfolding(crate::specs::Form::is_command))]
fn is_command<S: Source>(value: &S, asked: Command) -> bool
    ensures { result ≡ forms.is_command asked (S.content value.now) }
{
    value.has_only(&[asked.row().params, "ID", "Type"])
        && are_texts(value, &["ID", "Type"])
        && has_params(value, asked)
}

/// The command that a value is by its members and their kinds alone.
pub fn command_of<S: Source>(value: &S) -> Option<Command>
    ensures { result ≡ forms.command_form (S.content value.now) }
{
    [Command::Submit, Command::Return, Command::Abort]
        .into_iter()
        .find(|asked| is_command(value, *asked))
}

/// What such a command asks of the spawn that its params name. It may be sent.
pub fn command_asked<S: Source>(asked: Command, command: &S) -> Option<Family>
    ensures value { result ≡ said.command_in_params asked (S.content command.now) }
    ensures sent { IfSome result (λ s. said.can_be_sent s ≡ true) }
{
    let params = command.member(asked.row().params)?;
    let spawn = SpawnId::parse(text_under(params, "QueueEntryID")?).ok()?;
    Some(Family::Command(asked, spawn))
}

/// The params of a sender's command of a spawn.
fn params_item(
    alloc: Global,
    sender: &str,
    asked: Command,
    spawn: SpawnId,
) -> Result<Item, AllocError>
    ensures { IfOk result (λ item. item_data item
        ≡ attrs_data (written.params_texts sender.now asked spawn)) }
{
    let entry = ("QueueEntryID", text(alloc, spawn.to_id(alloc)?.as_str())?);
    let url = ("URL", text(alloc, NO_PLACE)?);
    match asked {
        Command::Submit => {
            let place = format!(in alloc; "jmf:{}", sender)?;
            let answers = ("ReturnJMF", text(alloc, place.as_str())?);
            let returns = ("ReturnURL", text(alloc, NO_PLACE)?);
            Ok(object(vec![in alloc; entry, answers, returns, url]?))
        }
        Command::Return => Ok(object(vec![in alloc; entry, url]?)),
        Command::Abort => Ok(object(vec![in alloc; entry]?)),
    }
}

/// A sender's command of a spawn. Its members stand in the byte order of their names.
pub fn command_item(
    alloc: Global,
    sender: &str,
    asked: Command,
    spawn: SpawnId,
) -> Result<Item, AllocError>
    ensures value { IfOk result (λ item. item_data item
        ≡ written.command_data sender.now asked spawn) }
    ensures valid { is_spawn_number spawn ≡ true }
{
    let id = command_id(alloc, asked, spawn)?;
    let id = ("ID", text(alloc, id.as_str())?);
    let params = params_item(alloc, sender, asked, spawn)?;
    let params = (asked.row().params, params);
    let kind = ("Type", text(alloc, asked.row().word)?);
    match asked {
        Command::Submit | Command::Return => Ok(object(vec![in alloc; id, params, kind]?)),
        Command::Abort => Ok(object(vec![in alloc; params, id, kind]?)),
    }
}
