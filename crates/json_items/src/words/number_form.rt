ghost use Rattle.std.specs.Prelude.{true};
ghost use Rattle.json_source.specs.Read.{number_of};

use crate::{Form, Validation};
use json_source::Source;
use std::alloc::Global;
use ticket_items::Refusal;

impl Form for u64 {
    ghost form = { number_of };

    ghost has_names = { λ _. true };

    ghost has_texts = { λ _. true };

    fn find<S: Source>(_alloc: Global, value: &S) -> Result<Validation<u64>, Refusal> {
        Ok(Ok(value.whole_number().ok_or(Refusal::NotProfile)?))
    }
}
