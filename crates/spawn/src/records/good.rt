//! Whether a record fits a ticket.

ghost use Rattle.std.specs.Prelude.{◌≡◌, ◌↔◌, ◌++◌, ◌||◌, false, not, IsTrue};
ghost use Rattle.std.specs.Option.{option_map, option_map_or};
ghost use Rattle.spawn.specs.Parts.{resources};
ghost use Rattle.spawn.specs.Records.{IsGood, is_out};
ghost use Rattle.spawn.specs.Stored as stored;
ghost use Rattle.spawn.specs.Walk as walk;

use crate::records::of_resource::behind;
use crate::records::spawn_rec::SpawnRec;
use ticket_items::is_among;
use ticket_tree::{At, Id, Resource, Rows, Ticket, is_linked};

/// The copies of a record that weren't met yet, on the way through a ticket's resources.
#[derive(Clone, Copy)]
struct UnmetCopies<'a> {
    rw: &'a [Id],
    ro: &'a [Resource],
}

/// What is left behind a resource.
fn meet<'a>(
    inside: &Rows<'_>,
    rw: &[Id],
    resource: &Resource,
    left: UnmetCopies<'a>,
) -> Option<UnmetCopies<'a>>
    ensures { option_map (λ l. (l.rw.now, l.ro.now)) result
        ≡ walk.unmet_behind inside.now rw.now resource.now (left.entry.rw.now, left.entry.ro.now) }
{
    if !is_linked(inside, &resource.id) {
        return Some(left);
    }
    if is_among(rw, &resource.id) {
        let rw = behind(left.rw, resource)?;
        Some(UnmetCopies { rw, ..left })
    } else {
        let ro = behind(left.ro, resource)?;
        Some(UnmetCopies { ro, ..left })
    }
}

/// What is left behind the resources of a pool.
fn meet_pool<'a>(
    inside: &Rows<'_>,
    rw: &[Id],
    pool: &[Resource],
    mut left: UnmetCopies<'a>,
) -> Option<UnmetCopies<'a>>
    ensures { option_map (λ l. (l.rw.now, l.ro.now)) result
        ≡ walk.unmet_behind_all inside.now rw.now pool.now (left.entry.rw.now, left.entry.ro.now) }
{
    for resource in pool {
        left = meet(inside, rw, resource, left)?;
    }
    Some(left)
}

/// What is left behind the resources of rows.
fn meet_rows<'a>(
    inside: &Rows<'_>,
    rw: &[Id],
    rows: &Rows<'_>,
    mut left: UnmetCopies<'a>,
) -> Option<UnmetCopies<'a>>
    ensures { option_map (λ l. (l.rw.now, l.ro.now)) result
        ≡ walk.unmet_behind_all inside.now rw.now (resources rows.now)
        (left.entry.rw.now, left.entry.ro.now) }
{
    for place in 0..rows.len() {
        let row = rows.at(place);
        left = meet_pool(inside, rw, row.resources.as_slice(), left)?;
    }
    Some(left)
}

/// What is left of the copies of a record behind the resources before its node, and behind those
/// after it and all below it.
fn unmet_copies_of<'a>(at: &At<'_>, spawn: &'a SpawnRec) -> Option<UnmetCopies<'a>>
    ensures { option_map (λ l. (l.rw.now, l.ro.now)) result
        ≡ walk.unmet_behind_all at.now.below spawn.now.rw
        (resources at.now.front ++ resources at.now.behind) (spawn.now.rw, spawn.now.ro) }
{
    let rw = spawn.rw.as_slice();
    let ro = spawn.ro.as_slice();
    let left = meet_rows(&at.below, rw, &at.front, UnmetCopies { rw, ro })?;
    meet_rows(&at.below, rw, &at.behind, left)
}

/// Whether the copies of a record are just those of the resources that the rows at and below its
/// node link, and that stand before or behind these.
fn has_copies(at: &At<'_>, spawn: &SpawnRec) -> bool
    ensures { result
        ≡ option_map_or walk.are_none
        (walk.unmet_behind_all at.now.below spawn.now.rw
        (resources at.now.front ++ resources at.now.behind)
        (spawn.now.rw, spawn.now.ro)) false }
{
    match unmet_copies_of(at, spawn) {
        None => false,
        Some(left) => left.rw.is_empty() && left.ro.is_empty(),
    }
}

/// Whether a record is good in a ticket (JDF 1.5, 4.4): its node stands below another, and its
/// copies are just the resources that the node or one below it links and that are at home above,
/// each once and in ticket order, those to read alone with the name and Class that they have there.
/// Needs no memory.
pub fn is_good(ticket: &Ticket, spawn: &SpawnRec) -> bool
    // Proved: A record is good just if its node has a parent and its copies are those linked from
    // above.
    // By `are_good`.
    ensures { IsTrue result ↔ IsGood ticket.now.rows spawn.now }
{
    match ticket.at(&spawn.node) {
        None => false,
        Some(at) => 1 < at.depth && has_copies(&at, spawn),
    }
}

/// Whether a record is good in a ticket, where it is out.
fn is_good_out(ticket: &Ticket, spawn: &SpawnRec) -> bool
    ensures { result ≡ (not (is_out spawn.now) || stored.is_good ticket.now.rows spawn.now) }
{
    !spawn.is_out() || is_good(ticket, spawn)
}

/// Whether each record that is out is good in a ticket. Needs no memory.
pub fn are_good(ticket: &Ticket, records: &[SpawnRec]) -> bool
    ensures { result ≡ stored.are_good ticket.now.rows records.now }
{
    records.iter().all(|spawn| is_good_out(ticket, spawn))
}
