//! The text of an answer.

ghost use Rattle.std.specs.Prelude.{◌≡◌, ◌++◌, string_bytes, IfOk};
ghost use Rattle.world_script.specs.AnswerText as texts;

use std::alloc::{AllocError, Global};
use ticket_tree::{Refusal, SpawnId};
use world_items::{Answer, Word};

/// A text with the id of a spawn behind it, if there is one.
fn with_spawn(alloc: Global, text: &str, spawn: Option<SpawnId>) -> Result<String, AllocError>
    ensures { IfOk result (λ with. string_bytes with ≡ text.now ++ texts.spawn_behind spawn) }
{
    match spawn {
        None => String::from_str(alloc, text),
        Some(spawn) => {
            let spawn = spawn.number();
            format!(in alloc; "{text} S{spawn}")
        }
    }
}

/// `Refused`, and a refusal's number and name.
fn refusal_words(alloc: Global, number: u16, name: &str) -> Result<String, AllocError>
    ensures { IfOk result (λ words. string_bytes words ≡ texts.refusal_words number name.now) }
{
    format!(in alloc; "Refused {number} {name}")
}

/// The words of a refusal, and the spawn that it tells of.
fn refusal_text(alloc: Global, refusal: &Refusal) -> Result<String, AllocError>
    ensures { IfOk result (λ text. string_bytes text ≡ texts.refusal_text refusal.now) }
{
    let words = refusal_words(alloc, refusal.number(), refusal.name())?;
    with_spawn(alloc, words.as_str(), refusal.holder())
}

/// What came of an event, in a word and what that tells.
fn word_text(alloc: Global, word: &Word) -> Result<String, AllocError>
    ensures { IfOk result (λ text. string_bytes text ≡ texts.word_text word.now) }
{
    match word {
        Word::Did(reply) => with_spawn(alloc, reply.word(), reply.spawn()),
        Word::Refused(refusal) => refusal_text(alloc, refusal),
        Word::Stopped => String::from_str(alloc, "Stopped"),
        Word::Restarted => String::from_str(alloc, "Restarted"),
        Word::NoMessage => String::from_str(alloc, "NoMessage"),
    }
}

/// The text of an answer, without a line end: the reply's word and the id of its spawn, or
/// `Refused` with the refusal's number and name and, of `NotHeld`, the id of the spawn that holds
/// it, or `Stopped`, `Restarted` or `NoMessage`; and behind that `#` and the number of the message
/// that was sent, if one was. Such as `Spawned S1 #1`, `Refused 12 NotHeld S1` and `Edited`.
pub fn answer_text(alloc: Global, answer: &Answer) -> Result<String, AllocError>
    // Proved: An answer's text is its reply or refusal, and the number of the message sent.
    ensures { IfOk result (λ text. string_bytes text ≡ texts.answer_text answer.now) }
{
    let text = word_text(alloc, &answer.word)?;
    match answer.number {
        None => Ok(text),
        Some(number) => format!(in alloc; "{text} #{number}"),
    }
}
