//! What answers tell.

ghost use Rattle.std.specs.Prelude.{◌≡◌, ◌<◌, ◌^◌, ◌⊎◌, ◌↔◌, ℕ, false, true};
ghost use Rattle.std.specs.Prelude.{None, Some, Err, IfOk, IfSome, IsNone, bytes_eq, decimal};
ghost use Rattle.std.specs.Str.{IsUtf8};
ghost use Rattle.json.specs.Json.{document};
ghost use Rattle.json.specs.Value.{value_view};
ghost use Rattle.etcd_wire.specs.Answer.{Answers, DidNot, HasNumber, Succeeded, TellsSwap};
ghost use Rattle.cells.specs.declared.swapped.SwapResult.{SwapResult};
ghost use Rattle.cells.specs.declared.swapped.SwapResult.TheVariants.{Made, Other};
ghost use Rattle.cells.specs.declared.swapped.SwapResult.TheVariants as swapped;
ghost use Rattle.etcd_wire.specs.declared.no_answer.NoAnswer.TheVariants.{Unknown};

use crate::no_answer::NoAnswer;
use cells::SwapResult;
use itoa::Buffer;
use json::{Error, Scratch, Value};
use std::alloc::{AllocError, Global};

/// Whether a text is that of a number.
fn is_decimal(text: &str, number: u64) -> bool
    ensures { result ≡ bytes_eq (decimal number) text.now }
{
    let mut buffer = Buffer::new();
    buffer.format(number) == text
}

/// The number that a text is in decimal, as it is printed.
fn number_of(text: &str) -> Option<u64>
    ensures some { IfSome result (λ n. (n < 2 ^ 64) × (text.now ≡ decimal n)) }
    ensures none { IsNone result → (n : ℕ) → n < 2 ^ 64 → text.now ≡ decimal n → ⊥ }
{
    let Ok(number) = text.parse::<u64>() else {
        return None;
    };
    if is_decimal(text, number) {
        Some(number)
    } else {
        None
    }
}

/// The number that stands under a name, as a text.
pub(crate) fn number_under(value: &Value<'_>, name: &str) -> Option<u64>
    ensures some { IfSome result (HasNumber name.now (value_view value.now)) }
    ensures none { IsNone result → (n : ℕ) → HasNumber name.now (value_view value.now) n → ⊥ }
{
    number_of(value.get(name)?.as_str()?)
}

/// The revision at which an answer was given.
pub(crate) fn revision_of(answer: &Value<'_>) -> Option<u64>
    ensures some { IfSome result (Answers (value_view answer.now)) }
    ensures none { IsNone result → (n : ℕ) → Answers (value_view answer.now) n → ⊥ }
{
    number_under(answer.get("header")?, "revision")
}

/// The JSON that a body is.
pub(crate) fn parsed<'a>(
    alloc: Global,
    body: &'a [u8],
    scratch: &'a mut Scratch,
) -> Result<Value<'a>, NoAnswer>
    ensures ok { IfOk result
        (λ v. IsUtf8 body.now × (document body.now ≡ Some (value_view v))) }
    ensures unknown { result ≡ Err Unknown → IsUtf8 body.now → document body.now ≡ None }
{
    match Value::from_slice(alloc, body, scratch) {
        Ok(value) => Ok(value),
        Err(Error::OutOfMemory) => Err(NoAnswer::Memory),
        Err(_) => Err(NoAnswer::Unknown),
    }
}

/// What the answer to a transaction tells of it: whether it was made. Its comparison didn't hold
/// where that is missing.
fn is_made(answer: &Value<'_>) -> Option<bool>
    ensures made { result ≡ Some true ↔ Succeeded (value_view answer.now) }
    ensures other { result ≡ Some false ↔ DidNot (value_view answer.now) }
{
    match answer.get("succeeded") {
        Some(succeeded) => succeeded.as_bool(),
        None => Some(false),
    }
}

/// What a status and a body tell of a swap or a touch. Anything but a 200 whose JSON has a revision
/// in its header leaves it unknown.
pub fn swapped_of(alloc: Global, status: u16, body: &[u8]) -> Result<SwapResult, AllocError>
    // Proved: An answer tells that a swap was made, and at which revision, or that its comparison
    // didn't hold, just where it is one that says so; anything else leaves it unknown.
    ensures { IfOk result (TellsSwap status body.now) }
{
    if status != 200 {
        return Ok(SwapResult::Unknown);
    }
    let mut scratch = Scratch::new(alloc);
    let answer = match parsed(alloc, body, &mut scratch) {
        Ok(answer) => answer,
        Err(NoAnswer::Memory) => return Err(AllocError),
        Err(NoAnswer::Unknown) => return Ok(SwapResult::Unknown),
    };
    Ok(told_in(&answer))
}

/// What an answer tells of a swap.
fn told_in(answer: &Value<'_>) -> SwapResult
    ensures made { (revision : ℕ) → result ≡ Made revision →
        Answers (value_view answer.now) revision × Succeeded (value_view answer.now) }
    ensures other { result ≡ Other →
        ((n : ℕ) × Answers (value_view answer.now) n) × DidNot (value_view answer.now) }
    ensures unknown { result ≡ swapped.Unknown → (n : ℕ) → Answers (value_view answer.now) n
        → Succeeded (value_view answer.now) ⊎ DidNot (value_view answer.now) → ⊥ }
{
    let Some(revision) = revision_of(answer) else {
        return SwapResult::Unknown;
    };
    match is_made(answer) {
        Some(true) => SwapResult::Made(revision),
        Some(false) => SwapResult::Other,
        None => SwapResult::Unknown,
    }
}
