//! The SpawnStatus of a resource (JDF 1.5, 3.8), by its word.

ghost use Rattle.std.specs.Prelude.{◌≡◌, true};
ghost use Rattle.json_items.specs.Shown as shown;

use crate::{Form, Validation};
use json_source::Source;
use std::alloc::Global;
use ticket_items::{Refusal, SpawnStatus};

impl Form for SpawnStatus {
    ghost form = { shown.spawn_status_form };

    ghost has_names = { λ _. true };

    ghost has_texts = { λ _. true };

    fn find<S: Source>(_alloc: Global, value: &S) -> Result<Validation<SpawnStatus>, Refusal> {
        match value.text().ok_or(Refusal::NotProfile)? {
            "NotSpawned" => Ok(Ok(SpawnStatus::NotSpawned)),
            "SpawnedRO" => Ok(Ok(SpawnStatus::SpawnedRO)),
            "SpawnedRW" => Ok(Ok(SpawnStatus::SpawnedRW)),
            _ => Err(Refusal::NotProfile),
        }
    }
}
