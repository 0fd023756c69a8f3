//! The IDs of messages.

ghost use Rattle.std.specs.Prelude.{◌≡◌, true, string_bytes, IfOk};
ghost use Rattle.ticket_items.specs.SpawnId.{is_spawn_number};
ghost use Rattle.controller.specs.Words as words;

use crate::family::{Family, family_of};
use controller::{Command, Message};
use std::alloc::{AllocError, Global};
use ticket_tree::SpawnId;

/// The ID of the command of a spawn.
pub fn command_id(alloc: Global, asked: Command, spawn: SpawnId) -> Result<String, AllocError>
    ensures id { IfOk result (λ id. string_bytes id ≡ words.command_id asked spawn) }
    ensures valid { is_spawn_number spawn ≡ true }
{
    format!(in alloc; "{}S{}", asked.row().mark, spawn.number())
}

/// The ID of the answer to the command of a spawn.
pub fn answer_id(alloc: Global, asked: Command, spawn: SpawnId) -> Result<String, AllocError>
    ensures id { IfOk result (λ id. string_bytes id ≡ words.answer_id asked spawn) }
    ensures valid { is_spawn_number spawn ≡ true }
{
    format!(in alloc; "{}S{}.a", asked.row().mark, spawn.number())
}

/// A message's ID: of a command `Q.`, `R.` or `A.` and its spawn's id, of an answer the command's
/// with `.a` behind it.
pub fn id_of(alloc: Global, message: &Message) -> Result<String, AllocError>
    // Proved: A message's ID tells its command, its spawn, and whether it answers.
    // By `laws::ids_tell_messages_apart`.
    ensures { IfOk result (λ id. string_bytes id ≡ words.message_id message.now.body) }
{
    match family_of(&message.body) {
        Family::Command(asked, spawn) => command_id(alloc, asked, spawn),
        Family::Answer(asked, spawn, _) => answer_id(alloc, asked, spawn),
    }
}
