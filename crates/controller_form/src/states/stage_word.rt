//! How far a worker is with a part, by its word.

ghost use Rattle.std.specs.Prelude.{◌≡◌};
ghost use Rattle.controller_form.specs.States.EntryForm as form;

use crate::orders::end_named::end_named;
use worker_core::Stage;

/// The stage that a word names in which the worker has the part.
pub fn stage_named(word: &str) -> Option<Stage>
    ensures { result ≡ form.stage_named word.now }
{
    match word {
        "Open" => Some(Stage::Open),
        _ => end_named(word).map(|end| Stage::Done(end)),
    }
}

/// The word of a stage.
pub fn stage_word(stage: Stage) -> &'static str
    ensures { result.now ≡ form.stage_word stage }
{
    match stage {
        Stage::Open => "Open",
        Stage::Done(end) => end.word(),
        Stage::Closed(_) => "Closed",
        Stage::Declined => "Declined",
    }
}
