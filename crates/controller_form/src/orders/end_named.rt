//! How the work on a part ends, by its word.

ghost use Rattle.std.specs.Prelude.{◌≡◌};
ghost use Rattle.controller_form.specs.Orders.EndNamed as form;

use worker_core::End;

/// The end that a word names.
pub fn end_named(word: &str) -> Option<End>
    ensures { result ≡ form.end_named word.now }
{
    match word {
        "Completed" => Some(End::Completed),
        "Aborted" => Some(End::Aborted),
        _ => None,
    }
}
