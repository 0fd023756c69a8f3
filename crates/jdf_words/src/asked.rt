//! What is asked for by words that stand for no call.

ghost use Rattle.std.specs.Prelude.{◌≡◌, map, string_bytes};
ghost use Rattle.clap.specs.Words.{kind_of};
ghost use Rattle.jdf_words.specs.Calls as calls;

use clap::error::ErrorKind;

/// Whether what `clap` answers words with is what they ask for: the version, or help by the word
/// `help`.
pub fn is_asked(words: &[String], answer: &clap::Error) -> bool
    // Proved: Of words that `clap` answers it is told whether they ask for that: for the version,
    // or for help by `help`.
    ensures { result ≡ calls.is_asked (map string_bytes words.now) (kind_of answer.now) }
{
    match answer.kind() {
        ErrorKind::DisplayVersion => true,
        ErrorKind::DisplayHelp => words.first().is_some_and(|word| word.as_str() == "help"),
        _ => false,
    }
}
