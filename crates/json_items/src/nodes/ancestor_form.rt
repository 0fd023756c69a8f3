ghost use Rattle.std.specs.Prelude.{true};
ghost use Rattle.json_items.specs.Ancestors as ancestors;

use crate::{Form, Validation, check_members, find_two};
use json_source::Source;
use std::alloc::Global;
use ticket_items::{Ancestor, Refusal};

impl Form for Ancestor {
    ghost form = { ancestors.ancestor_form };

    ghost has_names = { ancestors.ancestor_has_names };

    ghost has_texts = { λ _. true };

    #[tactic(auto, unfolding(crate::specs::Ancestors::ancestor_form, crate::specs::Ancestors::ancestor_has_names))]
    fn find<S: Source>(alloc: Global, value: &S) -> Result<Validation<Ancestor>, Refusal> {
        check_members(value, &["JobPartID", "NodeID"])?;
        let found = find_two(alloc, value, "NodeID", "JobPartID")?;
        Ok(found.map(|(node_id, job_part)| Ancestor { node_id, job_part }))
    }
}
