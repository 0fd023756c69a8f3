//! The id of a spawn, by the text that names it (our own).

ghost use Rattle.std.specs.Prelude.{true};
ghost use Rattle.ticket_items.specs.SpawnId.{is_spawn_number};
ghost use Rattle.json_items.specs.Spawns.{spawn_form};

use crate::{Form, Validation};
use json_source::Source;
use std::alloc::Global;
use ticket_items::{Refusal, SpawnId};

impl Form for SpawnId {
    ghost form = { spawn_form };

    ghost has_names = { is_spawn_number };

    ghost has_texts = { λ _. true };

    fn find<S: Source>(_alloc: Global, value: &S) -> Result<Validation<SpawnId>, Refusal> {
        let text = value.text().ok_or(Refusal::NotProfile)?;
        Ok(SpawnId::parse(text))
    }
}
