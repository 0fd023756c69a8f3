//! Texts in XML.

ghost use Rattle.std.specs.Prelude.{◌≡◌, ◌++◌, ◌<◌, ◌≤◌, chars, string_bytes, IfOk, OnOk};
ghost use Rattle.job_picture.specs.Texts as texts;

use std::alloc::{AllocError, Global};

/// What stands in XML in place of a character that may not stand there.
const REPLACEMENT: char = '\u{FFFD}';

/// Whether a character may not stand in XML 1.0, or ends a line.
fn is_unfit(character: char) -> bool
    ensures { result ≡ texts.is_unfit character }
{
    (character as u32) < 32 || character as u32 == 0xFFFE || character as u32 == 0xFFFF
}

/// Appends a character in a form in which it means nothing to XML.
#[tactic(auto, unfolding(crate::specs::Texts::escaped_char))]
fn push_char(text: &mut String, character: char) -> Result<(), AllocError>
    ensures { OnOk result (string_bytes text.new
        ≡ string_bytes text.old ++ texts.escaped_char character) }
{
    if character == '&' {
        text.push_str("&amp;")
    } else if character == '<' {
        text.push_str("&lt;")
    } else if character == '>' {
        text.push_str("&gt;")
    } else if character == '"' {
        text.push_str("&quot;")
    } else if character == '\'' {
        text.push_str("&#39;")
    } else if is_unfit(character) {
        text.push(REPLACEMENT)
    } else {
        text.push(character)
    }
}

/// Characters, one after another, in XML.
fn escaped_chars(alloc: Global, characters: &[char]) -> Result<String, AllocError>
    ensures { IfOk result (λ made. string_bytes made ≡ texts.escaped_chars characters.now) }
{
    let mut text = String::new(alloc);
    for character in characters {
        push_char(&mut text, *character)?;
    }
    Ok(text)
}

/// The characters of a text.
fn chars_of(alloc: Global, text: &str) -> Result<Vec<char>, AllocError>
    ensures { IfOk result (λ made. made.items ≡ chars text.now) }
{
    text.chars().collect(alloc)
}

/// A text in XML.
pub fn escaped_text(alloc: Global, text: &str) -> Result<String, AllocError>
    // Proved: A text is escaped for XML.
    ensures { IfOk result (λ made. string_bytes made ≡ texts.escaped_text text.now) }
{
    escaped_chars(alloc, chars_of(alloc, text)?.as_slice())
}

/// How many of the characters that there is room for are left behind a text of which `most` are
/// drawn at most.
#[tactic(auto, unfolding(crate::specs::Texts::room_behind))]
pub fn room_behind(room: usize, most: usize, text: &str) -> usize
    requires { most < room }
    ensures value { result ≡ texts.room_behind room most text.now }
    ensures some { 1 ≤ result }
{
    if text.len() <= most {
        return room - text.len();
    }
    room - most
}

/// A text in XML that has `most` characters at most, of which the last is `…` where more were left
/// out.
#[tactic(auto, unfolding(crate::specs::Texts::short_text))]
pub fn short_text(alloc: Global, most: usize, text: &str) -> Result<String, AllocError>
    requires { 1 ≤ most }
    ensures { IfOk result (λ made. string_bytes made ≡ texts.short_text most text.now) }
{
    let characters = chars_of(alloc, text)?;
    if characters.as_slice().len() <= most {
        return escaped_chars(alloc, characters.as_slice());
    }
    let mut made = escaped_chars(alloc, &characters.as_slice()[..most - 1])?;
    made.push_str("&#8230;")?;
    Ok(made)
}
