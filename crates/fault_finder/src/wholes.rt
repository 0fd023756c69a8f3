//! What no schema can say of a ticket or a part: ids that stand once, links that lead somewhere,
//! how deep a node may stand, and how the resources of a part are ordered.

use crate::kind::Kind;
use crate::located::LocatedValue;
use crate::quoted::QuotedText;
use crate::walk::Walk;
use std::alloc::AllocError;
use std::collections::{BTreeMap, BTreeSet};
use ticket_items::Refusal;

/// How deep a node may stand.
const MAX_DEPTH: usize = 32;

/// Looks at each ticket and part of a document.
pub(crate) fn look_at_wholes<'a>(
    walk: &mut Walk<'a>,
    document: &LocatedValue<'a>,
    kind: Kind,
) -> Result<(), AllocError> {
    match kind {
        Kind::Ticket => look_at_whole(walk, document),
        Kind::Edits | Kind::Script | Kind::Opening => look_within(walk, document, "Ticket"),
        Kind::Message => look_within(walk, document, "JDF"),
        Kind::State => {
            look_at_master(walk, document)?;
            look_at_worker(walk, document)
        }
        Kind::Order => Ok(()),
    }
}

/// Looks at the ticket or part under a name.
fn look_within<'a>(
    walk: &mut Walk<'a>,
    value: &LocatedValue<'a>,
    name: &'a str,
) -> Result<(), AllocError> {
    let Some(whole) = value.member(name) else {
        return Ok(());
    };
    walk.enter(name)?;
    look_at_whole(walk, whole)?;
    walk.leave();
    Ok(())
}

/// Looks at the ticket of the master whose state a document is.
fn look_at_master<'a>(walk: &mut Walk<'a>, document: &LocatedValue<'a>) -> Result<(), AllocError> {
    let Some(master) = document.member("Master") else {
        return Ok(());
    };
    walk.enter("Master")?;
    look_within(walk, master, "Ticket")?;
    walk.leave();
    Ok(())
}

/// Looks at the parts of the worker whose state a document is.
fn look_at_worker<'a>(walk: &mut Walk<'a>, document: &LocatedValue<'a>) -> Result<(), AllocError> {
    let Some(worker) = document.member("Worker") else {
        return Ok(());
    };
    walk.enter("Worker")?;
    walk.enter("Entries")?;
    for (index, entry) in worker.items_under("Entries").iter().enumerate() {
        walk.enter_item(index)?;
        look_within(walk, entry, "Part")?;
        walk.leave();
    }
    walk.leave();
    walk.leave();
    Ok(())
}

/// The ids that were met.
#[derive(Drop)]
struct Ids<'a> {
    /// Each, with where its node or resource stands.
    before: BTreeMap<&'a str, String>,
    /// Those of the resources in the pools of the node at hand and of those above it.
    linkable: BTreeSet<&'a str>,
}

/// Looks at a ticket or a part.
fn look_at_whole<'a>(walk: &mut Walk<'a>, root: &LocatedValue<'a>) -> Result<(), AllocError> {
    let mut ids = Ids {
        before: BTreeMap::new(walk.alloc),
        linkable: BTreeSet::new(walk.alloc),
    };
    look_at_node(walk, root, MAX_DEPTH, &mut ids)?;
    match root.text_under("SpawnID") {
        Some(spawn) if walk.seeks(Refusal::NotProfile) => look_at_groups(walk, root, spawn),
        _ => Ok(()),
    }
}

/// Looks at a node, where so many may stand one below the other from it on, and at those below it.
#[cycle(nodes)]
fn look_at_node<'a>(
    walk: &mut Walk<'a>,
    node: &LocatedValue<'a>,
    left: usize,
    ids: &mut Ids<'a>,
) -> Result<(), AllocError> {
    if left == 0 && walk.seeks(Refusal::TooDeep) {
        walk.tell(
            node.at(),
            "the node stands at depth 33, where 32 is the deepest",
        )?;
    }
    look_at_id(walk, node, ids)?;
    look_at_pool(walk, node, ids)?;
    look_at_links(walk, node, ids)?;
    if let LocatedValue::Object(_, members) = node {
        for (name, value) in members {
            if *name == "JDF" {
                look_at_children(walk, value, left, ids)?;
            }
        }
    }
    for resource in node.items_under("ResourcePool") {
        if let Some(id) = resource.text_under("ID") {
            ids.linkable.remove(id);
        }
    }
    Ok(())
}

/// Looks at the nodes of a list. Below one that stands too deep no depth is looked at.
#[cycle(nodes)]
fn look_at_children<'a>(
    walk: &mut Walk<'a>,
    list: &LocatedValue<'a>,
    left: usize,
    ids: &mut Ids<'a>,
) -> Result<(), AllocError> {
    let LocatedValue::List(_, nodes) = list else {
        return Ok(());
    };
    walk.enter("JDF")?;
    for (index, node) in nodes.iter().enumerate() {
        walk.enter_item(index)?;
        look_at_node(walk, node, left.checked_sub(1).unwrap_or(usize::MAX), ids)?;
        walk.leave();
    }
    walk.leave();
    Ok(())
}

/// Looks at the id of a node or a resource, which may stand among those before.
fn look_at_id<'a>(
    walk: &mut Walk<'a>,
    value: &LocatedValue<'a>,
    ids: &mut Ids<'a>,
) -> Result<(), AllocError> {
    let Some(LocatedValue::Text(at, id)) = value.member("ID") else {
        return Ok(());
    };
    if !walk.seeks(Refusal::DuplicateId) {
        return Ok(());
    }
    if let Some(other) = ids.before.get(*id) {
        let what = format!(in walk.alloc; "{} stands at {other} too", QuotedText(id))?;
        walk.enter("ID")?;
        walk.tell(*at, what.as_str())?;
        walk.leave();
        return Ok(());
    }
    ids.before.insert(*id, walk.path()?)?;
    Ok(())
}

/// Looks at the ids of a node's resources.
fn look_at_pool<'a>(
    walk: &mut Walk<'a>,
    node: &LocatedValue<'a>,
    ids: &mut Ids<'a>,
) -> Result<(), AllocError> {
    walk.enter("ResourcePool")?;
    for (index, resource) in node.items_under("ResourcePool").iter().enumerate() {
        walk.enter_item(index)?;
        look_at_id(walk, resource, ids)?;
        if let Some(id) = resource.text_under("ID") {
            ids.linkable.insert(id)?;
        }
        walk.leave();
    }
    walk.leave();
    Ok(())
}

/// Looks at the links of a node.
fn look_at_links<'a>(
    walk: &mut Walk<'a>,
    node: &LocatedValue<'a>,
    ids: &Ids<'a>,
) -> Result<(), AllocError> {
    walk.enter("ResourceLinkPool")?;
    for (index, link) in node.items_under("ResourceLinkPool").iter().enumerate() {
        let Some(LocatedValue::Text(at, id)) = link.member("rRef") else {
            continue;
        };
        if walk.seeks(Refusal::UnresolvedLink) && !ids.linkable.contains(*id) {
            let what = format!(in walk.alloc;
                "{} is no resource in the pool of this node or of one above it",
                QuotedText(id)
            )?;
            walk.enter_item(index)?;
            walk.enter("rRef")?;
            walk.tell(*at, what.as_str())?;
            walk.leave();
            walk.leave();
        }
    }
    walk.leave();
    Ok(())
}

/// The place of a resource's group among those of a part's root: its own, copies to change, copies
/// to read.
fn group_of(resource: &LocatedValue<'_>) -> u8 {
    match resource.text_under("SpawnStatus") {
        Some("SpawnedRW") => 1,
        Some("SpawnedRO") => 2,
        _ => 0,
    }
}

/// Looks at the resources of the root of a part of a spawn: its own come first, then copies to
/// change, then copies to read, and each copy shows the part's own spawn.
fn look_at_groups<'a>(
    walk: &mut Walk<'a>,
    root: &LocatedValue<'a>,
    spawn: &str,
) -> Result<(), AllocError> {
    let mut group = 0;
    walk.enter("ResourcePool")?;
    for (index, resource) in root.items_under("ResourcePool").iter().enumerate() {
        walk.enter_item(index)?;
        if group_of(resource) < group && walk.seeks(Refusal::NotProfile) {
            let what =
                "own resources stand before copies to change, and those before copies to read";
            walk.tell(resource.at(), what)?;
        }
        group = group.max(group_of(resource));
        look_at_spawn(walk, resource, spawn)?;
        walk.leave();
    }
    walk.leave();
    Ok(())
}

/// Looks at the spawn that a copy in a part of a spawn shows.
fn look_at_spawn<'a>(
    walk: &mut Walk<'a>,
    resource: &LocatedValue<'a>,
    spawn: &str,
) -> Result<(), AllocError> {
    walk.enter("SpawnIDs")?;
    for (index, item) in resource.items_under("SpawnIDs").iter().enumerate() {
        if let LocatedValue::Text(at, id) = item {
            if *id != spawn && walk.seeks(Refusal::NotProfile) {
                let what = format!(in walk.alloc;
                    "{} isn't the part's SpawnID {}",
                    QuotedText(id),
                    QuotedText(spawn)
                )?;
                walk.enter_item(index)?;
                walk.tell(*at, what.as_str())?;
                walk.leave();
            }
        }
    }
    walk.leave();
    Ok(())
}
