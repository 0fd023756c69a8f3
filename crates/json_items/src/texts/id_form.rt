ghost use Rattle.std.specs.Prelude.{Some, true};
ghost use Rattle.serde_json.specs.Find.{as_str};
ghost use Rattle.ticket_items.specs.Names as names;
ghost use Rattle.json_items.specs.Validation.{Reads};

use crate::{Form, Validation};
use json_source::Source;
use std::alloc::Global;
use ticket_items::{Id, Refusal, is_name};

/// What is found of the id that a text is. Refuses `Memory` alone.
pub fn id_in(alloc: Global, text: &str) -> Result<Validation<Id>, Refusal>
    ensures { Reads names.is_name (λ _. true) result (Some text.now) }
{
    if !is_name(text) {
        return Ok(Err(Refusal::BadId));
    }
    Ok(Ok(Id::from_valid(alloc, text)?))
}

impl Form for Id {
    ghost form = { as_str };

    ghost has_names = { names.is_name };

    ghost has_texts = { λ _. true };

    fn find<S: Source>(alloc: Global, value: &S) -> Result<Validation<Id>, Refusal> {
        let text = value.text().ok_or(Refusal::NotProfile)?;
        id_in(alloc, text)
    }
}
