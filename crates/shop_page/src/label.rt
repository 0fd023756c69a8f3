//! Values of labels, in the text that Prometheus reads.

ghost use Rattle.std.specs.Prelude.{◌≡◌, ◌++◌, chars, string_bytes, IfOk, OnOk};
ghost use Rattle.shop_page.specs.Metrics as metrics;

use std::alloc::{AllocError, Global};

/// Appends a character of a label's value.
#[tactic(auto, unfolding(crate::specs::Metrics::label_char))]
fn push_char(text: &mut String, character: char) -> Result<(), AllocError>
    ensures { OnOk result (string_bytes text.new
        ≡ string_bytes text.old ++ metrics.label_char character) }
{
    if character == '\\' {
        text.push_str("\\\\")
    } else if character == '"' {
        text.push_str("\\\"")
    } else if character == '\n' {
        text.push_str("\\n")
    } else {
        text.push(character)
    }
}

/// Characters of a label's value, one after another.
fn label_chars(alloc: Global, characters: &[char]) -> Result<String, AllocError>
    ensures { IfOk result (λ made. string_bytes made ≡ metrics.label_chars characters.now) }
{
    let mut text = String::new(alloc);
    for character in characters {
        push_char(&mut text, *character)?;
    }
    Ok(text)
}

/// The characters of a text.
fn chars_of(alloc: Global, text: &str) -> Result<Vec<char>, AllocError>
    ensures { IfOk result (λ made. made.items ≡ chars text.now) }
{
    text.chars().collect(alloc)
}

/// A text as the value of a label.
pub fn label(alloc: Global, text: &str) -> Result<String, AllocError>
    ensures { IfOk result (λ made. string_bytes made ≡ metrics.label text.now) }
{
    label_chars(alloc, chars_of(alloc, text)?.as_slice())
}
