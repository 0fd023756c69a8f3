//! The card of work that is open.

ghost use Rattle.std.specs.Prelude.{◌≡◌, ◌≤◌, ◌++◌, map, string_bytes, IfOk, OnOk};
ghost use Rattle.job_picture.specs.Cards as cards;

use crate::moments::{moment_text, span_text};
use crate::progress::Progress;
use crate::rows::name_words;
use crate::svg::{label, shade, shape};
use crate::texts::{room_behind, short_text};
use job_list::{Work, WorkPhase, known_id, known_name};
use std::alloc::{AllocError, Global};
use ticket_items::Text;
use worker_core::Stage;

/// What happened at the moment of work: a part went out, was taken, or was given back.
fn since_word(phase: WorkPhase) -> &'static str
    ensures { result.now ≡ cards.since_word phase }
{
    match phase {
        WorkPhase::Spawn(_) => "out since ",
        WorkPhase::Entry(Stage::Open) => "here since ",
        WorkPhase::Entry(Stage::Done(_)) => "given back ",
        WorkPhase::Entry(Stage::Closed(_)) => "given back ",
        WorkPhase::Entry(Stage::Declined) => "declined ",
    }
}

/// A name for people, as far as there is room, behind a space, if there is one.
fn short_name(alloc: Global, room: usize, name: &Option<Text>) -> Result<String, AllocError>
    requires { 1 ≤ room }
    ensures { IfOk result (λ made. string_bytes made ≡ cards.short_name room name.now) }
{
    match name {
        None => Ok(String::new(alloc)),
        Some(name) => {
            let name = short_text(alloc, room, name.as_str())?;
            format!(in alloc; " {name}")
        }
    }
}

/// Work in words, whole.
fn work_words(alloc: Global, work: &Work) -> Result<String, AllocError>
    ensures { IfOk result (λ made. string_bytes made ≡ cards.work_words work.now) }
{
    let number = work.spawn_id.number();
    let other = work.other.as_str();
    let node = known_id(&work.node);
    let name = name_words(alloc, &work.descriptive_name)?;
    let status = known_name(&work.status);
    format!(in alloc; "S{number} {other}: {node}{name}: {status}")
}

/// With whom work is, and how long at a moment.
fn card_head(alloc: Global, now: u64, work: &Work) -> Result<String, AllocError>
    ensures { IfOk result (λ made. string_bytes made ≡ cards.card_head now work.now) }
{
    let number = work.spawn_id.number();
    let other = short_text(alloc, 12, work.other.as_str())?;
    let other = format!(in alloc; "S{number} {other}")?;
    let other = label(alloc, "u", 16, 36, other.as_str())?;
    let age = span_text(alloc, now.saturating_sub(work.at))?;
    let age = label(alloc, "u e", 434, 36, age.as_str())?;
    format!(in alloc; "{other}{age}")
}

/// The node of work.
fn card_node(alloc: Global, work: &Work) -> Result<String, AllocError>
    ensures { IfOk result (λ made. string_bytes made ≡ cards.card_node work.now) }
{
    let room = room_behind(38, 22, known_id(&work.node));
    let node = short_text(alloc, 22, known_id(&work.node))?;
    let name = short_name(alloc, room, &work.descriptive_name)?;
    let text = format!(in alloc; "<tspan class='b'>{node}</tspan>{name}")?;
    label(alloc, "n", 16, 69, text.as_str())
}

/// The Status of the node of work, and since when it is so.
fn card_foot(alloc: Global, work: &Work) -> Result<String, AllocError>
    ensures { IfOk result (λ made. string_bytes made ≡ cards.card_foot work.now) }
{
    let status = known_name(&work.status);
    let mark = shape(alloc, Progress::of_status(status).shape(), 16, 82)?;
    let status = short_text(alloc, 14, status)?;
    let status = label(alloc, "n", 44, 98, status.as_str())?;
    let word = since_word(work.phase);
    let moment = moment_text(alloc, work.at)?;
    let since = format!(in alloc; "{word}{moment}")?;
    let since = label(alloc, "s e", 434, 98, since.as_str())?;
    format!(in alloc; "{mark}{status}{since}")
}

/// The card of work at a moment.
fn card(alloc: Global, now: u64, work: &Work) -> Result<String, AllocError>
    ensures { IfOk result (λ made. string_bytes made ≡ cards.card now work.now) }
{
    let words = work_words(alloc, work)?;
    let colour = shade(&Some(work.spawn_id));
    let head = card_head(alloc, now, work)?;
    let node = card_node(alloc, work)?;
    let foot = card_foot(alloc, work)?;
    format!(in alloc;
        "<title>{words}</title><rect class='c{colour} o' width='450' height='112' rx='8'/>\
        <svg width='450' height='112'>{head}{node}{foot}</svg>"
    )
}

/// The card of each work at a moment, in seconds since 1970.
pub fn cards_of(alloc: Global, now: u64, works: &[Work]) -> Result<Vec<String>, AllocError>
    ensures { IfOk result (λ made. map string_bytes made.items ≡ map (cards.card now) works.now) }
{
    let mut made = Vec::new(alloc);
    for work in works {
        made.push(card(alloc, now, work)?)?;
    }
    Ok(made)
}
