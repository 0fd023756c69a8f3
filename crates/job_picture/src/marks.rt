//! The marks of resources under their ids.

ghost use Rattle.std.specs.Prelude.{◌≡◌, ℕ, List, IfOk};
ghost use Rattle.job_picture.specs.Marked.{mark_in, mark_of};

use std::alloc::{AllocError, Global};
use std::collections::BTreeMap;
use ticket_items::ResMark;

/// Marks under the ids of their resources.
pub type Marked<'a> = BTreeMap<&'a str, &'a ResMark>;

/// The marks under the ids of their resources, of two of one id the first.
pub fn marked_by_id<'a>(alloc: Global, marks: &'a [ResMark]) -> Result<Marked<'a>, AllocError>
    ensures { IfOk result (λ table. (x : List ℕ) → mark_in table x ≡ mark_of marks.now x) }
{
    let mut table = BTreeMap::new(alloc);
    for place in (0..marks.len()).rev() {
        let mark = &marks[place];
        table.insert(mark.id.as_str(), mark)?;
    }
    Ok(table)
}
