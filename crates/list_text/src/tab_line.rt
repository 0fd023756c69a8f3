//! A line with tabs between.

ghost use Rattle.std.specs.Prelude.{◌≡◌, ◌++◌, chars, string_bytes, IfOk, OnOk};
ghost use Rattle.list_text.specs.TabLine as line;

use job_list::{Work, known_id, known_name};
use std::alloc::{AllocError, Global};
use ticket_items::Text;

/// What stands in a line in place of a control character that is no tab and ends no line.
const REPLACEMENT: char = '\u{FFFD}';

/// The line above the others: what stands in each place.
pub const HEAD_LINE: &str =
    "Controller\tJobID\tSpawnID\tPhase\tWith\tNode\tDescriptiveName\tAt\tSeconds\tStatus\tBytes\n";

/// Appends a character so that it ends neither a place nor a line.
#[tactic(auto, unfolding(crate::specs::TabLine::plain_char))]
fn push_char(text: &mut String, character: char) -> Result<(), AllocError>
    ensures { OnOk result (string_bytes text.new
        ≡ string_bytes text.old ++ line.plain_char character) }
{
    if character == '\t' {
        text.push_str("\\t")
    } else if character == '\n' {
        text.push_str("\\n")
    } else if character == '\r' {
        text.push_str("\\r")
    } else if character == '\\' {
        text.push_str("\\\\")
    } else if (character as u32) < 32 || character as u32 == 127 {
        text.push(REPLACEMENT)
    } else {
        text.push(character)
    }
}

/// Characters, one after another, so that none ends a place or a line.
fn plain_chars(alloc: Global, characters: &[char]) -> Result<String, AllocError>
    ensures { IfOk result (λ made. string_bytes made ≡ line.plain_chars characters.now) }
{
    let mut text = String::new(alloc);
    for character in characters {
        push_char(&mut text, *character)?;
    }
    Ok(text)
}

/// The characters of a text.
fn chars_of(alloc: Global, text: &str) -> Result<Vec<char>, AllocError>
    ensures { IfOk result (λ made. made.items ≡ chars text.now) }
{
    text.chars().collect(alloc)
}

/// A name for people in a place of a line, or nothing.
fn name_text(alloc: Global, name: &Option<Text>) -> Result<String, AllocError>
    ensures { IfOk result (λ made. string_bytes made ≡ line.name_text name.now) }
{
    match name {
        None => Ok(String::new(alloc)),
        Some(name) => plain_chars(alloc, chars_of(alloc, name.as_str())?.as_slice()),
    }
}

/// How many bytes a message has, or nothing where there is none.
fn size_text(alloc: Global, bytes: Option<u64>) -> Result<String, AllocError>
    ensures { IfOk result (λ made. string_bytes made ≡ line.size_text bytes) }
{
    match bytes {
        None => Ok(String::new(alloc)),
        Some(bytes) => format!(in alloc; "{bytes}"),
    }
}

/// What a line tells of work and its node.
fn work_part(alloc: Global, work: &Work) -> Result<String, AllocError>
    ensures { IfOk result (λ made. string_bytes made ≡ line.work_part work.now) }
{
    let job = known_name(&work.job);
    let number = work.spawn_id.number();
    let phase = work.phase.word();
    let other = work.other.as_str();
    let node = known_id(&work.node);
    let name = name_text(alloc, &work.descriptive_name)?;
    format!(in alloc; "{job}\tS{number}\t{phase}\t{other}\t{node}\t{name}")
}

/// What a line tells of times, of a Status and of a message.
fn rest_part(alloc: Global, work: &Work, bytes: Option<u64>, now: u64) -> Result<String, AllocError>
    ensures { IfOk result (λ made. string_bytes made ≡ line.rest_part bytes now work.now) }
{
    let at = work.at;
    let seconds = now.saturating_sub(at);
    let status = known_name(&work.status);
    let size = size_text(alloc, bytes)?;
    format!(in alloc; "{at}\t{seconds}\t{status}\t{size}")
}

/// The line of a controller's work at a time in seconds since 1970, whose message has so many bytes
/// if there is one.
pub fn tab_line(
    alloc: Global,
    controller: &str,
    work: &Work,
    bytes: Option<u64>,
    now: u64,
) -> Result<String, AllocError>
    ensures { IfOk result (λ made. string_bytes made
        ≡ line.tab_line controller.now bytes now work.now) }
{
    let front = work_part(alloc, work)?;
    let rest = rest_part(alloc, work, bytes, now)?;
    format!(in alloc; "{controller}\t{front}\t{rest}\n")
}
