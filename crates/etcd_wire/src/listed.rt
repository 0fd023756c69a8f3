//! The keys of a folder.

ghost use Rattle.std.specs.Prelude.{◌≡◌, ◌∷◌, ◌++◌, [], List, ℕ, Some, Err, IfOk, OnOk, codes, map};
ghost use Rattle.base64.specs.GeneralPurpose.{IsBytes};
ghost use Rattle.json.specs.Find.{get};
ghost use Rattle.json.specs.Json.{string};
ghost use Rattle.json.specs.Value.{value_view};
ghost use Rattle.etcd_wire.specs.Answer as answers;
ghost use Rattle.etcd_wire.specs.Answer.{AreKeyVersions, IsKeyVersion, IsListing, Tells};
ghost use Rattle.etcd_wire.specs.Request.{encoded};
ghost use Rattle.etcd_wire.specs.declared.no_answer.NoAnswer.TheVariants.{Unknown};

use crate::answer::{number_under, parsed, revision_of};
use crate::found::decoded;
use crate::key_version::KeyVersion;
use crate::no_answer::NoAnswer;
use json::{Scratch, Value};
use std::alloc::{AllocError, Global};

/// The bytes whose text stands under `key`.
fn key_in(alloc: Global, pair: &Value<'_>) -> Result<Vec<u8>, NoAnswer>
    ensures ok { IfOk result (λ k. IsBytes k.items
        × (get (codes "key") (value_view pair.now) ≡ Some (string (encoded k.items)))) }
    ensures unknown { result ≡ Err Unknown → (key : List ℕ) → IsBytes key
        → get (codes "key") (value_view pair.now) ≡ Some (string (encoded key)) → ⊥ }
{
    let Some(key) = pair.get("key") else {
        return Err(NoAnswer::Unknown);
    };
    match key.as_str() {
        Some(text) => decoded(alloc, text),
        None => Err(NoAnswer::Unknown),
    }
}

/// A key with the revision of its value.
fn version_of(alloc: Global, pair: &Value<'_>) -> Result<KeyVersion, NoAnswer>
    ensures ok { IfOk result (IsKeyVersion (value_view pair.now)) }
    ensures unknown { result ≡ Err Unknown →
        (k : answers.KeyVersion) → IsKeyVersion (value_view pair.now) k → ⊥ }
{
    let Some(revision) = number_under(pair, "mod_revision") else {
        return Err(NoAnswer::Unknown);
    };
    match key_in(alloc, pair) {
        Ok(key) => Ok(KeyVersion::new(key, revision)),
        Err(fault) => Err(fault),
    }
}

/// Puts one more behind others.
fn push(versions: &mut Vec<KeyVersion>, version: KeyVersion) -> Result<(), AllocError>
    ensures { OnOk result (versions.new.items ≡ versions.old.items ++ version ∷ []) }
{
    Ok(versions.push(version)?)
}

/// Each of these in its turn.
fn versions_of(alloc: Global, pairs: &[Value<'_>]) -> Result<Vec<KeyVersion>, NoAnswer>
    ensures ok { IfOk result (λ ks. AreKeyVersions (map value_view pairs.now) ks.items) }
    ensures unknown { result ≡ Err Unknown → (ks : List answers.KeyVersion)
        → AreKeyVersions (map value_view pairs.now) ks → ⊥ }
{
    let mut versions = Vec::with_capacity(alloc, pairs.len())?;
    for pair in pairs {
        match version_of(alloc, pair) {
            Ok(version) => push(&mut versions, version)?,
            Err(fault) => return Err(fault),
        }
    }
    Ok(versions)
}

/// The keys that were found.
fn listing_in(alloc: Global, answer: &Value<'_>) -> Result<Vec<KeyVersion>, NoAnswer>
    ensures ok { IfOk result (λ ks. IsListing (value_view answer.now) ks.items) }
    ensures unknown { result ≡ Err Unknown → (ks : List answers.KeyVersion)
        → IsListing (value_view answer.now) ks → ⊥ }
{
    let Some(kvs) = answer.get("kvs") else {
        return Ok(Vec::new(alloc));
    };
    if let Value::Array(pairs) = kvs {
        versions_of(alloc, pairs.as_slice())
    } else {
        Err(NoAnswer::Unknown)
    }
}

/// What a status and a body tell of the keys of a folder, each with the revision of its value.
/// Refuses as `held_of`.
pub fn listed_of(alloc: Global, status: u16, body: &[u8]) -> Result<Vec<KeyVersion>, NoAnswer>
    // Proved: An answer tells the keys of a folder, in its order and each with the revision of its
    // value, just where its status is 200, its JSON has a revision in its header, and each of the
    // list that stands in it is the base64 of a key with a revision; none where that is missing.
    // By `ok`, `unknown`; `KeyVersion::new`, `KeyVersion::key`, `KeyVersion::revision`.
    ensures ok { IfOk result (λ ks. Tells status body.now (λ _ j. IsListing j ks.items)) }
    ensures unknown { result ≡ Err Unknown → (ks : List answers.KeyVersion)
        → Tells status body.now (λ _ j. IsListing j ks) → ⊥ }
{
    if status != 200 {
        return Err(NoAnswer::Unknown);
    }
    let mut scratch = Scratch::new(alloc);
    let answer = parsed(alloc, body, &mut scratch)?;
    let Some(_) = revision_of(&answer) else {
        return Err(NoAnswer::Unknown);
    };
    listing_in(alloc, &answer)
}
