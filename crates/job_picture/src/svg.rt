//! Parts of a picture as SVG.

ghost use Rattle.std.specs.Prelude.{◌≡◌, string_bytes, IfOk};
ghost use Rattle.job_picture.specs.Svg as svg;

use std::alloc::{AllocError, Global};
use ticket_items::SpawnId;

/// How many colours there are.
const COLOURS: u32 = 8;

/// The shade of what a spawn holds, one of eight colours; what no spawn holds has none.
#[tactic(auto, unfolding(crate::specs::Svg::shade))]
pub fn shade(held: &Option<SpawnId>) -> u32
    ensures { result ≡ svg.shade held.now }
{
    match held {
        None => 0,
        Some(spawn) => spawn.number() % COLOURS + 1,
    }
}

/// A spawn's id; nothing where there is none.
pub fn held_text(alloc: Global, held: &Option<SpawnId>) -> Result<String, AllocError>
    ensures { IfOk result (λ made. string_bytes made ≡ svg.held_text held.now) }
{
    match held {
        None => Ok(String::new(alloc)),
        Some(spawn) => {
            let number = spawn.number();
            format!(in alloc; "S{number}")
        }
    }
}

/// What is drawn in a place of its own.
pub fn placed_drawing(alloc: Global, x: u64, y: u64, drawn: &str) -> Result<String, AllocError>
    ensures { IfOk result (λ made. string_bytes made ≡ svg.placed_drawing x y drawn.now) }
{
    format!(in alloc; "<g transform='translate({x} {y})'>{drawn}</g>\n")
}

/// A text of a class from a point on.
pub fn label(alloc: Global, class: &str, x: u64, y: u64, text: &str) -> Result<String, AllocError>
    ensures { IfOk result (λ made. string_bytes made ≡ svg.label class.now x y text.now) }
{
    format!(in alloc; "<text class='{class}' x='{x}' y='{y}'>{text}</text>")
}

/// The shape of a number.
pub fn shape(alloc: Global, number: u32, x: u64, y: u64) -> Result<String, AllocError>
    ensures { IfOk result (λ made. string_bytes made ≡ svg.shape number x y) }
{
    format!(in alloc; "<use href='#p{number}' x='{x}' y='{y}'/>")
}
