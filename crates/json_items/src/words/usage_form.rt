//! The Usage of a link (JDF 1.5, 3.9), by its word.

ghost use Rattle.std.specs.Prelude.{◌≡◌, true};
ghost use Rattle.json_items.specs.Links as links;

use crate::{Form, Validation};
use json_source::Source;
use std::alloc::Global;
use ticket_items::{Refusal, Usage};

impl Form for Usage {
    ghost form = { links.usage_form };

    ghost has_names = { λ _. true };

    ghost has_texts = { λ _. true };

    fn find<S: Source>(_alloc: Global, value: &S) -> Result<Validation<Usage>, Refusal> {
        match value.text().ok_or(Refusal::NotProfile)? {
            "Input" => Ok(Ok(Usage::Input)),
            "Output" => Ok(Ok(Usage::Output)),
            _ => Err(Refusal::NotProfile),
        }
    }
}
