//! What no schema can say of a state: what no controller can have come to.

use crate::located::LocatedValue;
use crate::quoted::QuotedText;
use crate::shops::{look_at_names, look_at_worker};
use crate::walk::Walk;
use std::alloc::AllocError;
use std::collections::{BTreeMap, BTreeSet};
use ticket_items::{Refusal, SpawnId};

/// Looks at the state that a document is.
pub(crate) fn look_at_state<'a>(
    walk: &mut Walk<'a>,
    document: &LocatedValue<'a>,
) -> Result<(), AllocError> {
    if let Some(master) = document.member("Master") {
        walk.enter("Master")?;
        look_at_names(walk, master, "Name", Refusal::BadState)?;
        look_at_spawns(walk, master)?;
        walk.leave();
    }
    if let Some(worker) = document.member("Worker") {
        walk.enter("Worker")?;
        look_at_worker(walk, worker, "Name", Refusal::BadState)?;
        look_at_entries(walk, worker)?;
        walk.leave();
    }
    Ok(())
}

/// What a master's ticket has.
#[derive(Drop)]
struct TicketFacts<'a> {
    /// The names of its workers.
    workers: BTreeSet<&'a str>,
    /// The ids of the nodes below the root.
    nodes: BTreeSet<&'a str>,
    /// The ids of the resources.
    resources: BTreeSet<&'a str>,
    /// What is claimed by spawns that are out.
    claims: BTreeMap<&'a str, usize>,
}

/// Adds the ids of a node's resources, and of the nodes below it.
#[cycle(known)]
fn add_node<'a>(known: &mut TicketFacts<'a>, node: &LocatedValue<'a>) -> Result<(), AllocError> {
    for resource in node.items_under("ResourcePool") {
        if let Some(id) = resource.text_under("ID") {
            known.resources.insert(id)?;
        }
    }
    if let LocatedValue::Object(_, members) = node {
        for (name, value) in members {
            if *name == "JDF" {
                add_nodes(known, value)?;
            }
        }
    }
    Ok(())
}

/// Adds the ids of the nodes of a list, and of those below them.
#[cycle(known)]
fn add_nodes<'a>(known: &mut TicketFacts<'a>, list: &LocatedValue<'a>) -> Result<(), AllocError> {
    if let LocatedValue::List(_, nodes) = list {
        for node in nodes {
            if let Some(id) = node.text_under("ID") {
                known.nodes.insert(id)?;
            }
            add_node(known, node)?;
        }
    }
    Ok(())
}

/// What a master has.
fn known_of<'a>(walk: &Walk<'a>, master: &LocatedValue<'a>) -> Result<TicketFacts<'a>, AllocError> {
    let mut known = TicketFacts {
        workers: BTreeSet::new(walk.alloc),
        nodes: BTreeSet::new(walk.alloc),
        resources: BTreeSet::new(walk.alloc),
        claims: BTreeMap::new(walk.alloc),
    };
    for worker in master.items_under("Workers") {
        if let Some(name) = worker.text() {
            known.workers.insert(name)?;
        }
    }
    if let Some(root) = master.member("Ticket") {
        add_node(&mut known, root)?;
    }
    Ok(known)
}

/// Tells that a text of a state is wrong, at the value under a name.
fn tell_text<'a>(
    walk: &mut Walk<'a>,
    object: &LocatedValue<'a>,
    name: &'a str,
    what: &str,
) -> Result<(), AllocError> {
    let Some(LocatedValue::Text(at, text)) = object.member(name) else {
        return Ok(());
    };
    if walk.seeks(Refusal::BadState) {
        let told = format!(in walk.alloc; "{} {what}", QuotedText(text))?;
        walk.enter(name)?;
        walk.tell(*at, told.as_str())?;
        walk.leave();
    }
    Ok(())
}

/// Looks at the spawns of a master.
fn look_at_spawns<'a>(walk: &mut Walk<'a>, master: &LocatedValue<'a>) -> Result<(), AllocError> {
    let mut known = known_of(walk, master)?;
    walk.enter("Spawns")?;
    for (index, spawn) in master.items_under("Spawns").iter().enumerate() {
        walk.enter_item(index)?;
        look_at_spawn(walk, spawn, index, &known)?;
        look_at_copies(walk, spawn, &known)?;
        if spawn.text_under("Phase") == Some("Out") {
            look_at_claims(walk, spawn, index, &mut known)?;
        }
        walk.leave();
    }
    walk.leave();
    Ok(())
}

/// Whether a text names the spawn at an index, from 0 on.
fn is_numbered(text: &str, index: usize) -> bool {
    match SpawnId::parse(text) {
        Ok(spawn) => spawn.number() as usize == index.saturating_add(1),
        Err(_) => false,
    }
}

/// Looks at a spawn: its number, its worker and its node.
fn look_at_spawn<'a>(
    walk: &mut Walk<'a>,
    spawn: &LocatedValue<'a>,
    index: usize,
    known: &TicketFacts<'a>,
) -> Result<(), AllocError> {
    match spawn.text_under("ID") {
        Some(id) if !is_numbered(id, index) => {
            tell_text(
                walk,
                spawn,
                "ID",
                "isn't the next number, as spawns go from S1 on",
            )?;
        }
        _ => {}
    }
    match spawn.text_under("Node") {
        Some(id) if !known.nodes.contains(id) => {
            tell_text(walk, spawn, "Node", "is no node of the ticket, or its root")?;
        }
        _ => {}
    }
    match spawn.text_under("Worker") {
        Some(name) if !known.workers.contains(name) => {
            tell_text(walk, spawn, "Worker", "is none of the Workers")
        }
        _ => Ok(()),
    }
}

/// Looks at the copies that went out with a spawn: each is of a resource of the ticket.
fn look_at_copies<'a>(
    walk: &mut Walk<'a>,
    spawn: &LocatedValue<'a>,
    known: &TicketFacts<'a>,
) -> Result<(), AllocError> {
    let unknown = "is no resource of the ticket";
    walk.enter("RO")?;
    for (index, copy) in spawn.items_under("RO").iter().enumerate() {
        walk.enter_item(index)?;
        match copy.text_under("ID") {
            Some(id) if !known.resources.contains(id) => tell_text(walk, copy, "ID", unknown)?,
            _ => {}
        }
        walk.leave();
    }
    walk.leave();
    walk.enter("RW")?;
    for (index, copy) in spawn.items_under("RW").iter().enumerate() {
        match copy {
            LocatedValue::Text(at, id) if !known.resources.contains(*id) => {
                if walk.seeks(Refusal::BadState) {
                    let what = format!(in walk.alloc; "{} {unknown}", QuotedText(id))?;
                    walk.enter_item(index)?;
                    walk.tell(*at, what.as_str())?;
                    walk.leave();
                }
            }
            _ => {}
        }
    }
    walk.leave();
    Ok(())
}

/// Looks at what a spawn that is out claims: its node, and what may be changed with it.
fn look_at_claims<'a>(
    walk: &mut Walk<'a>,
    spawn: &LocatedValue<'a>,
    index: usize,
    known: &mut TicketFacts<'a>,
) -> Result<(), AllocError> {
    let claims = spawn
        .member("Node")
        .into_iter()
        .chain(spawn.items_under("RW"));
    for claim in claims {
        let LocatedValue::Text(at, id) = claim else {
            continue;
        };
        match known.claims.get(*id) {
            Some(before) if walk.seeks(Refusal::BadState) => {
                let what = format!(in walk.alloc;
                    "Spawns[{before}] claims {} too, and is out",
                    QuotedText(id)
                )?;
                walk.tell(*at, what.as_str())?;
            }
            _ => {
                known.claims.insert(*id, index)?;
            }
        }
    }
    Ok(())
}

/// The SpawnID of an entry: its own, or in the first format that of its part.
fn spawn_of<'a>(entry: &LocatedValue<'a>) -> Option<&'a str> {
    match entry.text_under("ID") {
        Some(id) => Some(id),
        None => entry.member("Part")?.text_under("SpawnID"),
    }
}

/// Looks at the entries of a worker: no two are of one spawn.
fn look_at_entries<'a>(walk: &mut Walk<'a>, worker: &LocatedValue<'a>) -> Result<(), AllocError> {
    let mut before = BTreeSet::new(walk.alloc);
    walk.enter("Entries")?;
    for (index, entry) in worker.items_under("Entries").iter().enumerate() {
        walk.enter_item(index)?;
        if let Some(spawn) = spawn_of(entry) {
            if !before.insert(spawn)? && walk.seeks(Refusal::BadState) {
                let what = format!(in walk.alloc; "another entry is of {} too", QuotedText(spawn))?;
                walk.tell(entry.at(), what.as_str())?;
            }
        }
        look_at_entry(walk, entry)?;
        walk.leave();
    }
    walk.leave();
    Ok(())
}

/// Looks at an entry: it is its part's, and one that ended has the Status of its end.
fn look_at_entry<'a>(walk: &mut Walk<'a>, entry: &LocatedValue<'a>) -> Result<(), AllocError> {
    let Some(part) = entry.member("Part") else {
        return Ok(());
    };
    let (id, spawn) = (entry.text_under("ID"), part.text_under("SpawnID"));
    if id.is_some() && spawn.is_some() && id != spawn {
        tell_text(walk, entry, "ID", "isn't the SpawnID of its part")?;
    }
    let phase = entry.text_under("Phase");
    let has_ended = phase == Some("Completed") || phase == Some("Aborted");
    if has_ended && part.text_under("Status") != phase {
        walk.enter("Part")?;
        tell_text(
            walk,
            part,
            "Status",
            "isn't the Phase of the entry, which has ended",
        )?;
        walk.leave();
    }
    Ok(())
}
