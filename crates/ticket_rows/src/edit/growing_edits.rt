//! What the structural edits do, which add to the tree.

ghost use Rattle.std.specs.Prelude.{◌≡◌, ◌∷◌, ◌++◌, [], ◌<◌, Some};
ghost use Rattle.std.specs.Prelude.{suc, false, true, length, slice_get};
ghost use Rattle.std.specs.Prelude.{OnErr, OnOk};
ghost use Rattle.std.specs.List.{insert};
ghost use Rattle.ticket_items.specs.Ids.{are_distinct, mem};
ghost use Rattle.ticket_items.specs.declared.node_row.NodeRow.{NodeRow};
ghost use Rattle.ticket_rows.specs.Boxed.{contents};
ghost use Rattle.ticket_rows.specs.ChangedRow.{at_place, end_behind};
ghost use Rattle.ticket_rows.specs.Edit as edit;
ghost use Rattle.ticket_rows.specs.Index.{IsIndex};
ghost use Rattle.ticket_rows.specs.Ticket.{ids, max_depth};

use crate::index::Index;
use std::alloc::{AllocError, Global};
use ticket_items::{Attrs, Id, Items, Link, Name, NodeRow, Resource};

/// A node without attributes, pools and audits.
fn bare_row(alloc: Global, id: Id, kind: Name, job_part: Name, status: Name, depth: u32) -> NodeRow
    ensures { result ≡ edit.bare_row id kind job_part status depth }
{
    NodeRow {
        id,
        depth,
        kind,
        job_part,
        status,
        attrs: Attrs::new(alloc),
        resources: Items::new(Vec::new(alloc)),
        links: Items::new(Vec::new(alloc)),
        audits: Items::new(Vec::new(alloc)),
    }
}

/// Puts a node last among the children of the one at a place, and its id into the index of the
/// rows.
pub fn add_node(
    alloc: Global,
    rows: &mut Vec<Box<NodeRow>>,
    index: &mut Index,
    place: usize,
    id: Id,
    kind: Name,
    job_part: Name,
    status: Name,
) -> Result<(), AllocError>
    requires within { place < length (contents rows.old.items) }
    requires shallow { (r : NodeRow) → slice_get (contents rows.old.items) place ≡ Some r
        → r.depth < max_depth }
    requires index { IsIndex (contents rows.old.items) index.old }
    requires distinct { are_distinct (ids (contents rows.old.items)) ≡ true }
    requires new { mem id (ids (contents rows.old.items)) ≡ false }
    ensures ok { (r : NodeRow) → slice_get (contents rows.old.items) place ≡ Some r
        → OnOk result (contents rows.new.items
        ≡ insert (contents rows.old.items) (end_behind (contents rows.old.items) place r)
        (edit.bare_row id kind job_part status (suc r.depth))) }
    ensures err { OnErr result (contents rows.new.items ≡ contents rows.old.items) }
    ensures index { IsIndex (contents rows.new.items) index.new }
{
    let depth = rows[place].depth + 1;
    let key = id.clone()?;
    let row = Box::new(alloc, bare_row(alloc, id, kind, job_part, status, depth))?;
    rows.reserve(1)?;
    let end = index.add_node(rows.as_slice(), place, key)?;
    rows.insert(end, row).unwrap();
    Ok(())
}

/// Puts a resource last in the pool of the node at a place, and its id into the index of the rows.
pub fn add_resource(
    rows: &mut Vec<Box<NodeRow>>,
    index: &mut Index,
    place: usize,
    resource: Resource,
) -> Result<(), AllocError>
    requires within { place < length (contents rows.old.items) }
    requires index { IsIndex (contents rows.old.items) index.old }
    requires distinct { are_distinct (ids (contents rows.old.items)) ≡ true }
    requires new { mem resource.id (ids (contents rows.old.items)) ≡ false }
    ensures ok { OnOk result (contents rows.new.items ≡ at_place place
        (λ r. record r { resources = r.resources ++ resource ∷ [] }) (contents rows.old.items)) }
    ensures err { OnErr result (contents rows.new.items ≡ contents rows.old.items) }
    ensures index { IsIndex (contents rows.new.items) index.new }
{
    let id = resource.id.clone()?;
    index.add_resource(rows.as_slice(), place, &id)?;
    match rows[place].resources.push(resource) {
        Ok(()) => Ok(()),
        Err(failed) => {
            index.take_out(&id);
            Err(failed)
        }
    }
}

/// Puts a link last in the pool of the node at a place.
pub fn add_link(rows: &mut Vec<Box<NodeRow>>, place: usize, link: Link) -> Result<(), AllocError>
    requires { place < length (contents rows.old.items) }
    ensures ok { OnOk result (contents rows.new.items ≡ at_place place
        (λ r. record r { links = r.links ++ link ∷ [] }) (contents rows.old.items)) }
    ensures err { OnErr result (contents rows.new.items ≡ contents rows.old.items) }
{
    rows[place].links.push(link)?;
    Ok(())
}
