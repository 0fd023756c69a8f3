//! How far a spawn is, by its word.

ghost use Rattle.std.specs.Prelude.{◌≡◌};
ghost use Rattle.controller_form.specs.States.RecordForm as form;

use spawn::Phase;

/// The phase of a spawn's record that a word names.
pub fn phase_named(word: &str) -> Option<Phase>
    ensures { result ≡ form.phase_named word.now }
{
    match word {
        "Out" => Some(Phase::Out),
        "Merged" => Some(Phase::Merged),
        "Withdrawn" => Some(Phase::Withdrawn),
        _ => None,
    }
}

/// The word of a phase.
pub fn phase_word(phase: Phase) -> &'static str
    ensures { result.now ≡ form.phase_word phase }
{
    match phase {
        Phase::Out => "Out",
        Phase::Merged => "Merged",
        Phase::Withdrawn => "Withdrawn",
    }
}
