ghost use Rattle.json_reader.specs.Found.{FindsAs, IsTaken};
ghost use Rattle.json_reader.specs.Groups.{taken_form};

use crate::found_nodes::{FoundNodes, PART_MEMBERS, find_below};
use crate::found_row::own_row;
use crate::part_groups::{GroupSizes, group_sizes, take_copies};
use json_items::{Form, Raw, Validation, find_three, text_under, zip};
use json_source::Source;
use std::alloc::Global;
use std::marker::Model;
use ticket_tree::{Ancestors, Items, Name, NodeRow, Part, Refusal, SpawnId};

/// A part by its members and their kinds, and by what its resources show, of which the names and
/// texts are valid: its rows may be no tree's.
#[derive(Drop)]
pub struct RawPart {
    job: Name,
    spawn: SpawnId,
    ancestors: Ancestors,
    /// Its nodes, with the copies in the root's pool.
    rows: Items<NodeRow>,
    sizes: GroupSizes,
}

impl Model for RawPart {
    ghost use Rattle.json_items.specs.PartDraft.{RawPart as PartSeen, raw_part};
    ghost use Rattle.json_reader.specs.Groups.{split_rows};

    ghost Value = { PartSeen };

    ghost view = { λ p. raw_part p.job p.spawn p.ancestors (split_rows p.sizes p.rows) };
}

impl RawPart {
    ghost use Rattle.std.specs.Prelude.{◌≡◌};

    /// Its spawn.
    pub fn spawn(&self) -> SpawnId
        // Proved: The spawn of a part that was found is told.
        ensures { result ≡ self.now.spawn }
    {
        self.spawn
    }
}

/// The rows of a part with the copies in the root's pool, and how many resources stand there in
/// each group. Refuses `NotProfile`, also where the root's resources don't stand in their groups or
/// another node's show something, and `Memory`.
fn find_rows<S: Source>(
    alloc: Global,
    value: &S,
) -> Result<(Validation<Items<NodeRow>>, GroupSizes), Refusal>
    ensures { FindsAs IsTaken result (taken_form (S.content value.now)) }
{
    let spawn = text_under(value, "SpawnID").ok_or(Refusal::NotProfile)?;
    let (root, shown) = own_row(alloc, PART_MEMBERS, 1, value)?;
    let sizes = group_sizes(shown.as_slice(), spawn)?;
    drop(shown);
    let mut found = FoundNodes::new(alloc);
    found.push(root, true)?;
    find_below(alloc, &mut found, 1, value)?;
    let FoundNodes { rows, bare } = found;
    if !bare {
        return Err(Refusal::NotProfile);
    }
    Ok((rows, sizes))
}

impl Form for RawPart {
    ghost use Rattle.json_items.specs.PartDraft.{part_form};
    ghost use Rattle.json_items.specs.PartForm as form;

    ghost form = { part_form };

    ghost has_names = { form.has_names };

    ghost has_texts = { form.has_texts };

    // Proved: A part is found as its form says.
    fn find<S: Source>(alloc: Global, value: &S) -> Result<Validation<RawPart>, Refusal> {
        let outer = find_three(alloc, value, "JobID", "SpawnID", "AncestorPool")?;
        let (rows, sizes) = find_rows(alloc, value)?;
        Ok(zip(outer, rows).map(|(((job, spawn), ancestors), rows)| RawPart {
            job,
            spawn,
            ancestors,
            rows,
            sizes,
        }))
    }
}

impl Raw for RawPart {
    ghost use Rattle.json_items.specs.PartForm as form;

    type Whole = Part;

    ghost late_fault = { form.built_fault };

    ghost made = { form.part_of_raw };

    /// Refuses the first of `ReservedStatus`, `DuplicateId`, `TooDeep` and `UnresolvedLink` that
    /// stands in it, with the copies as resources of the root; `Memory` may come before any.
    // Proved: A part that was found is built where nothing else is wrong.
    fn build(self, alloc: Global) -> Result<Part, Refusal> {
        let RawPart {
            job,
            spawn,
            ancestors,
            rows,
            sizes,
        } = self;
        let mut rows = rows.into_vec();
        let (rw, ro) = take_copies(alloc, &mut rows, sizes)?;
        Part::new(alloc, job, spawn, ancestors, rows, rw, ro)
    }
}
