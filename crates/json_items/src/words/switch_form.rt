ghost use Rattle.std.specs.Prelude.{true};
ghost use Rattle.serde_json.specs.Find.{as_bool};

use crate::{Form, Validation};
use json_source::Source;
use std::alloc::Global;
use ticket_items::Refusal;

impl Form for bool {
    ghost form = { as_bool };

    ghost has_names = { λ _. true };

    ghost has_texts = { λ _. true };

    fn find<S: Source>(_alloc: Global, value: &S) -> Result<Validation<bool>, Refusal> {
        Ok(Ok(value.truth().ok_or(Refusal::NotProfile)?))
    }
}
