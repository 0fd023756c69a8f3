//! Resources by themselves, without what they show of spawns: members of an object that may have
//! more.

ghost use Rattle.json_items.specs.Resources as resources;

use crate::{Form, Validation, find_attrs, find_four, zip};
use json_source::Source;
use std::alloc::Global;
use ticket_items::{Refusal, Resource};

impl Form for Resource {
    ghost form = { resources.own_resource };

    ghost has_names = { resources.resource_has_names };

    ghost has_texts = { resources.resource_has_texts };

    #[tactic(auto, unfolding(crate::specs::Resources::own_resource))]
    fn find<S: Source>(alloc: Global, value: &S) -> Result<Validation<Resource>, Refusal> {
        let names = find_four(alloc, value, "Class", "ID", "Name", "Status")?;
        let attrs = find_attrs(alloc, value)?;
        let ((((class, id), name), status), attrs) = match zip(names, attrs) {
            Ok(found) => found,
            Err(refusal) => return Ok(Err(refusal)),
        };
        Ok(Ok(Resource {
            id,
            name,
            class,
            status,
            attrs,
        }))
    }
}
