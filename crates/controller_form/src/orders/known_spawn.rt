//! The spawn that an order is about.

ghost use Rattle.std.specs.Prelude.{true};
ghost use Rattle.ticket_items.specs.SpawnId.{is_spawn_number};
ghost use Rattle.json_items.specs.Validation.{Reads};
ghost use Rattle.controller_form.specs.Orders.KnownSpawn.{known_form};

use json_items::{Validation, check_members, find_under};
use json_source::Source;
use std::alloc::Global;
use ticket_tree::{Refusal, SpawnId};

/// The spawn of an order that tells nothing else. Refuses `NotProfile`, and `Memory`.
#[tactic(auto, unfolding(crate::specs::Orders::KnownSpawn::known_form))]
pub fn known_spawn<S: Source>(alloc: Global, value: &S) -> Result<Validation<SpawnId>, Refusal>
    ensures { Reads is_spawn_number (λ _. true) result (known_form (S.content value.now)) }
{
    check_members(value, &["Order", "SpawnID"])?;
    find_under(alloc, value, "SpawnID")
}
