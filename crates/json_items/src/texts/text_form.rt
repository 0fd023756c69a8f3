ghost use Rattle.std.specs.Prelude.{true};
ghost use Rattle.serde_json.specs.Find.{as_str};
ghost use Rattle.ticket_items.specs.Names as names;

use crate::{Form, Validation};
use json_source::Source;
use std::alloc::Global;
use ticket_items::{Refusal, Text, is_text};

impl Form for Text {
    ghost form = { as_str };

    ghost has_names = { λ _. true };

    ghost has_texts = { names.is_text };

    fn find<S: Source>(alloc: Global, value: &S) -> Result<Validation<Text>, Refusal> {
        let text = value.text().ok_or(Refusal::NotProfile)?;
        if !is_text(text) {
            return Ok(Err(Refusal::BadText));
        }
        Ok(Ok(Text::from_valid(alloc, text)?))
    }
}
