//! Whether a part that comes back has the shape of what went out.

ghost use Rattle.std.specs.Prelude.{◌≡◌, ◌↔◌, ◌-◌, IsTrue};
ghost use Rattle.merge.specs.Alike as alike;
ghost use Rattle.merge.specs.Shape.{Fits};

use crate::alike::are_rows;
use crate::copies::are_copies;
use spawn::SpawnRec;
use ticket_tree::{At, NodeRow, Part, Ticket};

/// Whether a part that came with these rows is of this spawn of the ticket, and has the rows that
/// are seen at the node and the copies of the spawn, but for what a worker may change.
fn is_part(ticket: &Ticket, spawn: &SpawnRec, at: &At<'_>, came: &[NodeRow], part: &Part) -> bool
    requires { came.now ≡ part.now.rows }
    ensures { result ≡ alike.is_part ticket.now spawn.now at.now.below (at.now.depth - 1)
        part.now }
{
    let rows = ticket.rows();
    *part.job() == *ticket.job()
        && part.spawn_id() == spawn.id
        && are_rows(&at.below, came, at.levels())
        && are_copies(&rows, spawn.rw.as_slice(), part.rw())
}

/// Whether a part that comes back has the shape of what the ticket still has of the spawn (JDF 1.5,
/// 4.4): the same job and spawn; the same nodes in the same order, each at its depth and with its
/// Type, job part, links and the ids, names and Classes of its resources; the same copies that may
/// be changed, by id, name and Class; and the audits of each node, behind which the part may have
/// more. Everything else may differ: Statuses, attributes, further audits, the copies that may be
/// read alone and what the part tells of its ancestors. Needs no memory.
pub fn fits(ticket: &Ticket, spawn: &SpawnRec, part: &Part) -> bool
    ensures { IsTrue result ↔ Fits ticket.now spawn.now part.now }
{
    let came = part.rows();
    match ticket.at(&spawn.node) {
        None => false,
        Some(at) => is_part(ticket, spawn, &at, came, part),
    }
}
