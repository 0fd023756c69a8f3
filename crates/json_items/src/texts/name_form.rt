ghost use Rattle.std.specs.Prelude.{true};
ghost use Rattle.serde_json.specs.Find.{as_str};
ghost use Rattle.ticket_items.specs.Names as names;

use crate::{Form, Validation};
use json_source::Source;
use std::alloc::Global;
use ticket_items::{Name, Refusal, is_name};

impl Form for Name {
    ghost form = { as_str };

    ghost has_names = { names.is_name };

    ghost has_texts = { λ _. true };

    fn find<S: Source>(alloc: Global, value: &S) -> Result<Validation<Name>, Refusal> {
        let text = value.text().ok_or(Refusal::NotProfile)?;
        if !is_name(text) {
            return Ok(Err(Refusal::BadId));
        }
        Ok(Ok(Name::from_valid(alloc, text)?))
    }
}
