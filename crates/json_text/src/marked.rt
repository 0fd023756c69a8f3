//! What a ticket shows of the spawns that are out.

ghost use Rattle.std.specs.Prelude.{◌≡◌, true, map, IfOk};
ghost use Rattle.std.specs.Option.{option_copied};
ghost use Rattle.ticket_items.specs.Names.{is_name};
ghost use Rattle.ticket_items.specs.SpawnId.{spawn_text};
ghost use Rattle.json_text.specs.Marked as marked;

use json_items::{AnyText, Showing};
use std::alloc::{AllocError, Global};
use ticket_items::is_among;
use ticket_tree::{Id, Items, Marks, NodeRow, ResMark, Resource, SpawnId};

/// The marks of a ticket of which nothing is out.
pub fn no_marks(alloc: Global) -> Marks
    // Proved: What a ticket shows is told by its marks.
    // By `showing_of`; `shown_status`: `status`, `valid`.
    ensures { result ≡ marked.no_marks }
{
    Marks {
        nodes: Items::new(Vec::new(alloc)),
        resources: Items::new(Vec::new(alloc)),
    }
}

/// The Status that a node shows.
pub fn shown_status<'a>(marks: &Marks, row: &'a NodeRow) -> &'a str
    ensures status { result.now ≡ marked.shown_status marks.now row.now }
    ensures valid { is_name row.now.status ≡ true }
{
    let status = row.status.as_str();
    if is_among(marks.nodes.as_slice(), &row.id) {
        return "Spawned";
    }
    status
}

/// The mark of a resource.
fn mark_of<'a>(marks: &'a Marks, id: &Id) -> Option<&'a ResMark>
    ensures { option_copied result ≡ marked.mark_of marks.now.resources id.now }
{
    marks
        .resources
        .as_slice()
        .iter()
        .find(|mark| mark.id == *id)
}

/// The ids of spawns as texts.
fn spawn_texts(alloc: Global, spawns: &[SpawnId]) -> Result<Items<AnyText>, AllocError>
    ensures { IfOk result (λ texts. texts ≡ map spawn_text spawns.now) }
{
    let mut texts = Vec::with_capacity(alloc, spawns.len())?;
    for spawn in spawns {
        let id = spawn.to_id(alloc)?;
        texts.push(AnyText::new(alloc, id.as_str())?)?;
    }
    Ok(Items::new(texts))
}

/// What a resource of a ticket with these marks shows.
pub fn showing_of(alloc: Global, marks: &Marks, resource: &Resource) -> Result<Showing, AllocError>
    ensures { IfOk result (λ shown. shown ≡ marked.showing_of marks.now resource.now) }
{
    let Some(mark) = mark_of(marks, &resource.id) else {
        return Ok(Showing::nothing(alloc));
    };
    Ok(Showing {
        locked: false,
        spawn_ids: spawn_texts(alloc, mark.spawn_ids.as_slice())?,
        spawn_status: mark.status,
    })
}
