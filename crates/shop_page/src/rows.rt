//! The rows of open work on a page.

ghost use Rattle.std.specs.Prelude.{◌≡◌, decimal, string_bytes, IfOk};
ghost use Rattle.job_list.specs.Work.{known_text};
ghost use Rattle.refusal_rows.specs.Rows as table;
ghost use Rattle.shop_page.specs.Rows as rows;

use crate::cells::{cell, link_cell};
use crate::open_work::OpenWork;
use job_list::{Work, known_id, known_name};
use job_picture::{moment_text, span_text};
use refusal_rows::text_of;
use std::alloc::{AllocError, Global};
use ticket_items::Text;

/// A text that is known, or nothing.
fn known_text(text: &Option<Text>) -> &str
    ensures { result.now ≡ known_text text.now }
{
    match text {
        None => "",
        Some(text) => text.as_str(),
    }
}

/// The first line of a text.
fn first_line(text: &str) -> &str
    ensures { result.now ≡ rows.first_line text.now }
{
    match text.split_once('\n') {
        Some((line, _)) => line,
        None => text,
    }
}

/// A refusal: the first line of its text, where the table has one, or its number.
fn refusal_cell(alloc: Global, number: u16) -> Result<String, AllocError>
    ensures { IfOk result (λ told. string_bytes told
        ≡ rows.refusal_cell (table.text_of (decimal number)) number) }
{
    let digits = format!(in alloc; "{number}")?;
    match text_of(digits.as_str()) {
        Some(text) => String::from_str(alloc, first_line(text)),
        None => Ok(digits),
    }
}

/// How a message fares that was refused, or wasn't and waits too long or doesn't.
fn words_of(alloc: Global, refusal: Option<u16>, is_late: bool) -> Result<String, AllocError>
    ensures { IfOk result (λ words. string_bytes words ≡ rows.words_of refusal is_late) }
{
    match refusal {
        Some(number) => {
            let told = refusal_cell(alloc, number)?;
            format!(in alloc; "refused: {told}")
        }
        None if is_late => String::from_str(alloc, "no answer yet"),
        None => Ok(String::new(alloc)),
    }
}

/// How the message of work fares, at a time in seconds since 1970.
#[tactic(auto, unfolding(crate::specs::Rows::message_words))]
fn message_words(alloc: Global, one: &OpenWork<'_>, now: u64) -> Result<String, AllocError>
    ensures { IfOk result (λ words. string_bytes words ≡ rows.message_words now one.now) }
{
    words_of(alloc, one.refusal(), one.waits_long(now))
}

/// How a row looks: red where its message was refused, amber where it waits too long.
#[tactic(auto, unfolding(crate::specs::Rows::class_of))]
fn class_of(one: &OpenWork<'_>, now: u64) -> &'static str
    ensures { result.now ≡ rows.class_of now one.now }
{
    if one.refusal().is_some() {
        "r"
    } else if one.waits_long(now) {
        "w"
    } else {
        "o"
    }
}

/// The cells of a row that tell what the work of a controller is.
fn work_cells(alloc: Global, controller: &str, work: &Work) -> Result<String, AllocError>
    ensures { IfOk result (λ made. string_bytes made
        ≡ rows.work_cells controller.now work.now) }
{
    let number = work.spawn_id.number();
    let spawn = format!(in alloc; "S{number}")?;
    let link = link_cell(alloc, controller)?;
    let job = cell(alloc, known_name(&work.job))?;
    let spawn = cell(alloc, spawn.as_str())?;
    let phase = cell(alloc, work.phase.word())?;
    let other = cell(alloc, work.other.as_str())?;
    let node = cell(alloc, known_id(&work.node))?;
    let name = cell(alloc, known_text(&work.descriptive_name))?;
    let status = cell(alloc, known_name(&work.status))?;
    format!(in alloc; "{link}{job}{spawn}{phase}{other}{node}{name}{status}")
}

/// Those that tell since when it is so, for how long at a time in seconds since 1970, and how the
/// message fares.
fn time_cells(alloc: Global, one: &OpenWork<'_>, now: u64) -> Result<String, AllocError>
    ensures { IfOk result (λ made. string_bytes made ≡ rows.time_cells now one.now) }
{
    let at = one.work.at;
    let moment = moment_text(alloc, at)?;
    let moment = cell(alloc, moment.as_str())?;
    let span = span_text(alloc, now.saturating_sub(at))?;
    let span = cell(alloc, span.as_str())?;
    let words = message_words(alloc, one, now)?;
    let words = cell(alloc, words.as_str())?;
    format!(in alloc; "{moment}{span}{words}")
}

/// The row of work at a time in seconds since 1970.
pub(crate) fn row(alloc: Global, one: &OpenWork<'_>, now: u64) -> Result<String, AllocError>
    ensures { IfOk result (λ made. string_bytes made ≡ rows.row now one.now) }
{
    let class = class_of(one, now);
    let work = work_cells(alloc, one.controller, one.work)?;
    let times = time_cells(alloc, one, now)?;
    format!(in alloc; "<tr class=\"{class}\">{work}{times}</tr>\n")
}
