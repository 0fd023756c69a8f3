//! What stands under a key.

ghost use Rattle.std.specs.Prelude.{◌≡◌, ◌⊎◌, List, ℕ, Some, Err};
ghost use Rattle.std.specs.Prelude.{IfOk, IfSome, IsNone, Option, OnOk};
ghost use Rattle.base64.specs.GeneralPurpose.{IsBytes};
ghost use Rattle.json.specs.Json.{Json};
ghost use Rattle.json.specs.Value.{value_view};
ghost use Rattle.cells.specs.Chain.{Version};
ghost use Rattle.etcd_wire.specs.Answer.{HasValue, IsFound, IsVersion, Tells};
ghost use Rattle.etcd_wire.specs.Request.{encoded, one};
ghost use Rattle.etcd_wire.specs.declared.no_answer.NoAnswer.TheVariants.{Unknown};

use crate::answer::{number_under, parsed, revision_of};
use crate::no_answer::NoAnswer;
use base64::DecodeAllocError;
use base64::engine::general_purpose::STANDARD;
use cells::VersionedValue;
use json::{Scratch, Value};
use std::alloc::Global;

/// The bytes whose text this is.
pub(crate) fn decoded(alloc: Global, text: &str) -> Result<Vec<u8>, NoAnswer>
    ensures ok { IfOk result (λ v. IsBytes v.items × (text.now ≡ encoded v.items)) }
    ensures unknown { result ≡ Err Unknown →
        (bytes : List ℕ) → IsBytes bytes → text.now ≡ encoded bytes → ⊥ }
{
    match STANDARD.decode(alloc, text.as_bytes()) {
        Ok(bytes) => Ok(bytes),
        Err(DecodeAllocError::OutOfMemory) => Err(NoAnswer::Memory),
        Err(DecodeAllocError::DecodeError(_)) => Err(NoAnswer::Unknown),
    }
}

/// The bytes under `value`, none where that is missing.
fn value_in(alloc: Global, pair: &Value<'_>) -> Result<Vec<u8>, NoAnswer>
    ensures ok { IfOk result (λ v. HasValue (value_view pair.now) v.items) }
    ensures unknown { result ≡ Err Unknown →
        (bytes : List ℕ) → HasValue (value_view pair.now) bytes → ⊥ }
{
    let Some(value) = pair.get("value") else {
        return Ok(Vec::new(alloc));
    };
    match value.as_str() {
        Some(text) => decoded(alloc, text),
        None => Err(NoAnswer::Unknown),
    }
}

/// A value with its revision.
fn version_in(alloc: Global, pair: &Value<'_>) -> Result<VersionedValue, NoAnswer>
    ensures ok { IfOk result (IsVersion (value_view pair.now)) }
    ensures unknown { result ≡ Err Unknown →
        (v : Version) → IsVersion (value_view pair.now) v → ⊥ }
{
    let Some(revision) = number_under(pair, "mod_revision") else {
        return Err(NoAnswer::Unknown);
    };
    match value_in(alloc, pair) {
        Ok(bytes) => Ok(VersionedValue::new(revision, bytes)),
        Err(fault) => Err(fault),
    }
}

/// The item of a list of one.
#[tactic(auto, using(crate::proofs::Told::one_of, crate::proofs::Told::none_of, crate::proofs::Told::more_of))]
fn only<'t, 'a>(list: &'t Value<'a>) -> Option<&'t Value<'a>>
    ensures some { IfSome result (λ item. value_view list.now ≡ one (value_view item.now)) }
    ensures none { IsNone result → (item : Json) → value_view list.now ≡ one item → ⊥ }
{
    let item = list.at(0)?;
    match list.at(1) {
        Some(_) => None,
        None => Some(item),
    }
}

/// What was found.
fn found_in(alloc: Global, answer: &Value<'_>) -> Result<Option<VersionedValue>, NoAnswer>
    ensures ok { IfOk result (IsFound (value_view answer.now)) }
    ensures unknown { result ≡ Err Unknown →
        (found : Option Version) → IsFound (value_view answer.now) found → ⊥ }
{
    let Some(list) = answer.get("kvs") else {
        return Ok(None);
    };
    let Some(pair) = only(list) else {
        return Err(NoAnswer::Unknown);
    };
    match version_in(alloc, pair) {
        Ok(version) => Ok(Some(version)),
        Err(fault) => Err(fault),
    }
}

/// What a status and a body tell of what is under a key: a value with its revision, or that there
/// is none. Refuses `Unknown` where they tell nothing, as anything does but a 200 whose JSON has a
/// revision in its header; and `Memory`.
pub fn held_of(alloc: Global, status: u16, body: &[u8]) -> Result<Option<VersionedValue>, NoAnswer>
    // Proved: An answer tells a value just where its status is 200, its JSON has a revision in its
    // header, and one value with a revision stands in it, whose bytes are the base64 there or,
    // where that is missing, none; and that there is none just where no list of values stands in
    // it.
    // By `ok`, `unknown`.
    ensures ok { IfOk result (λ found. Tells status body.now (λ _ j. IsFound j found)) }
    ensures unknown { result ≡ Err Unknown → (found : Option Version)
        → Tells status body.now (λ _ j. IsFound j found) → ⊥ }
{
    if status != 200 {
        return Err(NoAnswer::Unknown);
    }
    let mut scratch = Scratch::new(alloc);
    let answer = parsed(alloc, body, &mut scratch)?;
    let Some(_) = revision_of(&answer) else {
        return Err(NoAnswer::Unknown);
    };
    found_in(alloc, &answer)
}
