ghost use Rattle.std.specs.Prelude.{true};
ghost use Rattle.json_items.specs.Links as links;

use crate::{Form, Validation, check_members, find_two};
use json_source::Source;
use std::alloc::Global;
use ticket_items::{Link, Refusal, Usage};

impl Form for Link {
    ghost form = { links.link_form };

    ghost has_names = { links.link_has_names };

    ghost has_texts = { λ _. true };

    #[tactic(auto, unfolding(crate::specs::Links::link_form))]
    fn find<S: Source>(alloc: Global, value: &S) -> Result<Validation<Link>, Refusal> {
        check_members(value, &["Usage", "rRef"])?;
        let found = find_two(alloc, value, "Usage", "rRef")?;
        Ok(found.map(|(usage, rref)| Link { rref, usage }))
    }
}
