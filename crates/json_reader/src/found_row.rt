//! What is found of one node of a ticket or a part.

ghost use Rattle.std.specs.Prelude.{map};
ghost use Rattle.json_items.specs.TicketDraft as form;
ghost use Rattle.json_reader.specs.Found.{FindsAs, IsRow};

use crate::found_pool::FoundPool;
use json_items::{Showing, Validation, check_members, find_attrs, find_four, find_pool, zip};
use json_source::Source;
use std::alloc::Global;
use ticket_tree::{Items, NodeRow, Refusal};

/// What is found of a node without its children, of an object with no other members than `names`:
/// its row, or the first of `BadId` and `BadText` that stands in it, and what its resources show of
/// spawns. Refuses `NotProfile`, and `Memory`.
pub fn own_row<S: Source>(
    alloc: Global,
    names: &[&str],
    depth: u32,
    value: &S,
) -> Result<(Validation<NodeRow>, Items<Showing>), Refusal>
    ensures { FindsAs IsRow result
        (form.own_row (map (λ n. n.now) names.now) depth (S.content value.now)) }
{
    check_members(value, names)?;
    let texts = find_four(alloc, value, "ID", "Type", "JobPartID", "Status")?;
    let attrs = find_attrs(alloc, value)?;
    let links = find_pool(alloc, value, "ResourceLinkPool")?;
    let audits = find_pool(alloc, value, "AuditPool")?;
    let FoundPool { resources, shown } = FoundPool::find(alloc, value, "ResourcePool")?;
    let own = zip(zip(texts, attrs), zip(links, audits));
    let row = zip(own, resources).map(|((own, (links, audits)), resources)| {
        let ((((id, kind), job_part), status), attrs) = own;
        NodeRow {
            id,
            depth,
            kind,
            job_part,
            status,
            attrs,
            resources,
            links,
            audits,
        }
    });
    Ok((row, shown))
}
