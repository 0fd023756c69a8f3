//! The row of a node in a picture, with the resources of its pool.

ghost use Rattle.std.specs.Prelude.{◌≡◌, ◌≤◌, ◌++◌, length, string_bytes, IfOk, OnOk};
ghost use Rattle.std.specs.List.{filter};
ghost use Rattle.std.specs.Option.{option_copied};
ghost use Rattle.job_picture.specs.Marked.{mark_in};
ghost use Rattle.job_picture.specs.Rows as rows;

use crate::marks::Marked;
use crate::node_line::NodeLine;
use crate::progress::Progress;
use crate::svg::{held_text, label, shade, shape};
use crate::texts::{escaped_text, room_behind, short_text};
use job_list::descriptive_name;
use std::alloc::{AllocError, Global};
use ticket_items::{Id, NodeRow, Resource, SpawnId, SpawnStatus, Text};

/// Copies that are out, and with which spawns, in words.
fn copies_words(
    alloc: Global,
    status: SpawnStatus,
    spawns: &[SpawnId],
) -> Result<String, AllocError>
    ensures { IfOk result (λ made. string_bytes made ≡ rows.copies_words status spawns.now) }
{
    let word = status.word();
    let mut text = format!(in alloc; " {word}")?;
    for spawn in spawns {
        let number = spawn.number();
        text.push_str(format!(in alloc; " S{number}")?.as_str())?;
    }
    Ok(text)
}

/// What the mark of a resource tells of copies, if there is one, in words.
fn mark_words(alloc: Global, marked: &Marked<'_>, id: &Id) -> Result<String, AllocError>
    ensures { IfOk result (λ made. string_bytes made
        ≡ rows.mark_words (mark_in marked.now id.now)) }
{
    match marked.get(id.as_str()) {
        None => Ok(String::new(alloc)),
        Some(mark) => copies_words(alloc, mark.status, mark.spawn_ids.as_slice()),
    }
}

/// A resource in words, on a line of its own, with what is told of copies.
fn resource_words(alloc: Global, resource: &Resource, copies: &str) -> Result<String, AllocError>
    ensures { IfOk result (λ made. string_bytes made
        ≡ rows.resource_words resource.now copies.now) }
{
    let id = resource.id.as_str();
    let class = resource.class.as_str();
    let name = resource.name.as_str();
    let status = resource.status.as_str();
    format!(in alloc; "&#10;{id} {class} {name} {status}{copies}")
}

/// Each resource of a pool in words.
fn pool_words(alloc: Global, marked: &Marked<'_>, pool: &[Resource]) -> Result<String, AllocError>
    ensures { IfOk result (λ made. string_bytes made
        ≡ rows.pool_words (mark_in marked.now) pool.now) }
{
    let mut text = String::new(alloc);
    for resource in pool {
        let copies = mark_words(alloc, marked, &resource.id)?;
        text.push_str(resource_words(alloc, resource, copies.as_str())?.as_str())?;
    }
    Ok(text)
}

/// Copies that went with a spawn in words, each on a line of its own.
pub fn copy_words(
    alloc: Global,
    status: SpawnStatus,
    spawn: SpawnId,
    copies: &[Resource],
) -> Result<String, AllocError>
    ensures { IfOk result (λ made. string_bytes made
        ≡ rows.copy_words status spawn copies.now) }
{
    let words = copies_words(alloc, status, &[spawn])?;
    let mut text = String::new(alloc);
    for resource in copies {
        text.push_str(resource_words(alloc, resource, words.as_str())?.as_str())?;
    }
    Ok(text)
}

/// A name for people, behind a comma, if there is one.
pub fn name_words(alloc: Global, name: &Option<Text>) -> Result<String, AllocError>
    ensures { IfOk result (λ made. string_bytes made ≡ rows.name_words name.now) }
{
    match name {
        None => Ok(String::new(alloc)),
        Some(name) => {
            let name = escaped_text(alloc, name.as_str())?;
            format!(in alloc; ", {name}")
        }
    }
}

/// A node in words, whole.
fn node_words(alloc: Global, row: &NodeRow, pool: &str) -> Result<String, AllocError>
    ensures { IfOk result (λ made. string_bytes made ≡ rows.node_words row.now pool.now) }
{
    let id = row.id.as_str();
    let kind = row.kind.as_str();
    let name = name_words(alloc, &descriptive_name(alloc, row)?)?;
    let status = row.status.as_str();
    format!(in alloc; "{id} {kind}{name}: {status}{pool}")
}

/// Whether a resource is there to be used.
fn is_available(resource: &Resource) -> bool
    ensures { result ≡ rows.is_available resource.now }
{
    resource.status.as_str() == "Available"
}

/// How many resources of a pool are there to be used.
fn count_available(pool: &[Resource]) -> usize
    ensures { result ≡ length (filter rows.is_available pool.now) }
{
    let mut count = 0;
    for resource in pool {
        if is_available(resource) {
            count += 1;
        }
    }
    count
}

/// How many resources of a pool are there, of how many.
fn counts_text(alloc: Global, pool: &[Resource]) -> Result<String, AllocError>
    ensures { IfOk result (λ made. string_bytes made ≡ rows.counts_text pool.now) }
{
    let available = count_available(pool);
    let count = pool.len();
    format!(in alloc; "{available}/{count}")
}

/// The same, and nothing where there are none.
#[tactic(auto, unfolding(crate::specs::Rows::pool_text))]
fn pool_text(alloc: Global, pool: &[Resource]) -> Result<String, AllocError>
    ensures { IfOk result (λ made. string_bytes made ≡ rows.pool_text pool.now) }
{
    if pool.len() == 0 {
        return Ok(String::new(alloc));
    }
    counts_text(alloc, pool)
}

/// What a node is called, as far as there is room: its DescriptiveName or, where it has none, its
/// Type.
fn node_title(
    alloc: Global,
    room: usize,
    row: &NodeRow,
    name: &Option<Text>,
) -> Result<String, AllocError>
    requires { 1 ≤ room }
    ensures { IfOk result (λ made. string_bytes made ≡ rows.node_title room row.now name.now) }
{
    match name {
        None => short_text(alloc, room, row.kind.as_str()),
        Some(name) => short_text(alloc, room, name.as_str()),
    }
}

/// The id and the name of a node.
fn node_label(alloc: Global, row: &NodeRow) -> Result<String, AllocError>
    ensures { IfOk result (λ made. string_bytes made ≡ rows.node_label row.now) }
{
    let room = room_behind(34, 20, row.id.as_str());
    let id = short_text(alloc, 20, row.id.as_str())?;
    let name = node_title(alloc, room, row, &descriptive_name(alloc, row)?)?;
    format!(in alloc; "<tspan class='b'>{id}</tspan> {name}")
}

/// The shape, the id and the name of a node.
fn node_drawn(alloc: Global, row: &NodeRow, progress: Progress) -> Result<String, AllocError>
    ensures { IfOk result (λ made. string_bytes made ≡ rows.node_drawn row.now progress) }
{
    let x = 10 * u64::from(row.depth);
    let mark = shape(alloc, progress.shape(), x, 3)?;
    let name = node_label(alloc, row)?;
    let text = label(alloc, "n", x + 26, 18, name.as_str())?;
    format!(in alloc; "<svg width='404' height='25'>{mark}{text}</svg>")
}

/// The Status of a node, the spawn that holds it, and its resources.
fn node_facts(alloc: Global, row: &NodeRow, held: &Option<SpawnId>) -> Result<String, AllocError>
    ensures { IfOk result (λ made. string_bytes made ≡ rows.node_facts row.now held.now) }
{
    let status = short_text(alloc, 13, row.status.as_str())?;
    let status = label(alloc, "s", 410, 18, status.as_str())?;
    let holder = label(alloc, "s b", 514, 18, held_text(alloc, held)?.as_str())?;
    let pool = pool_text(alloc, row.resources.as_slice())?;
    let pool = label(alloc, "s e", 604, 18, pool.as_str())?;
    format!(in alloc; "{status}{holder}{pool}")
}

/// The row of a node that a spawn holds, or none, with its resources in words.
fn node_text(
    alloc: Global,
    row: &NodeRow,
    held: &Option<SpawnId>,
    progress: Progress,
    pool: &str,
) -> Result<String, AllocError>
    ensures { IfOk result (λ made. string_bytes made
        ≡ rows.node_text row.now held.now progress pool.now) }
{
    let words = node_words(alloc, row, pool)?;
    let colour = shade(held);
    let drawn = node_drawn(alloc, row, progress)?;
    let facts = node_facts(alloc, row, held)?;
    format!(in alloc;
        "<title>{words}</title><rect class='c{colour}' width='610' height='25'/>{drawn}{facts}"
    )
}

/// The line of a node that a spawn holds, or none, by the marks of resources, with copies in words.
pub fn node_line(
    alloc: Global,
    marked: &Marked<'_>,
    row: &NodeRow,
    held: &Option<SpawnId>,
    copies: &str,
) -> Result<NodeLine, AllocError>
    ensures { IfOk result (λ line. rows.line_of line
        ≡ rows.node_line (mark_in marked.now) row.now held.now copies.now) }
{
    let progress = Progress::of_status(row.status.as_str());
    let mut pool = pool_words(alloc, marked, row.resources.as_slice())?;
    pool.push_str(copies)?;
    let text = node_text(alloc, row, held, progress, pool.as_str())?;
    Ok(NodeLine { progress, text })
}
