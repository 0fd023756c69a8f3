//! The bodies of requests.

ghost use Rattle.std.specs.Prelude.{◌≡◌, ◌≤◌, ◌∷◌, ◌++◌, [], Some, IfOk, codes};
ghost use Rattle.json.specs.Json.{document, string};
ghost use Rattle.json.specs.Tree.{HasNumbers, depth};
ghost use Rattle.json.specs.Value.{value_view};
ghost use Rattle.etcd_wire.specs.Request as form;
ghost use Rattle.etcd_wire.specs.Request.{text_of};

use crate::parts::{one, pair, single, triple};
use base64::engine::general_purpose::STANDARD;
use itoa::Buffer;
use json::{Value, to_vec};
use std::alloc::{AllocError, Global};

/// The body that asks for what is under a key.
pub fn range_request(alloc: Global, key: &[u8]) -> Result<Vec<u8>, AllocError>
    // Proved: The body of a request is the text of one JSON value with no space in it, which is
    // read again as that. Of a swap and a touch that has one comparison, of the revision under the
    // key with the one that is given, one put under that key where it holds, and a look under it
    // where it doesn't. A touch puts what is there again, and of revision 0 no bytes.
    // By `text`, `again`; `listing_request`, `swap_request`, `touch_request`,
    // `compaction_request`: `text`, `again`.
    ensures text { IfOk result (λ body. body.items ≡ text_of (form.range key.now)) }
    ensures again { IfOk result (λ body. document body.items ≡ Some (form.range key.now)) }
{
    let key = STANDARD.encode(alloc, key)?;
    let range = single(alloc, "key", Value::String(key.as_str()))?;
    to_vec(alloc, &range)
}

/// The body that asks for the keys of a folder, without what is under them: those that begin with
/// these bytes and a `/`.
pub fn listing_request(alloc: Global, folder: &[u8]) -> Result<Vec<u8>, AllocError>
    ensures text { IfOk result (λ body. body.items ≡ text_of (form.listing folder.now)) }
    ensures again { IfOk result (λ body. document body.items ≡ Some (form.listing folder.now)) }
{
    let first = with_byte(alloc, folder, b'/')?;
    let end = with_byte(alloc, folder, b'0')?;
    let first = STANDARD.encode(alloc, first.as_slice())?;
    let end = STANDARD.encode(alloc, end.as_slice())?;
    listing_body(alloc, first.as_str(), end.as_str())
}

/// The body that asks for the keys from the first on and before the end, by their texts.
fn listing_body<'a>(alloc: Global, first: &'a str, end: &'a str) -> Result<Vec<u8>, AllocError>
    ensures text { IfOk result (λ body.
        body.items ≡ text_of (form.keys_between first.now end.now)) }
    ensures again { IfOk result (λ body.
        document body.items ≡ Some (form.keys_between first.now end.now)) }
{
    let listing = keys_between(alloc, first, end)?;
    to_vec(alloc, &listing)
}

/// The keys from the first on and before the end, without what is under them.
fn keys_between<'a>(alloc: Global, first: &'a str, end: &'a str) -> Result<Value<'a>, AllocError>
    ensures value { IfOk result (λ v. value_view v ≡ form.keys_between first.now end.now) }
    ensures numbers { IfOk result (λ v. HasNumbers (value_view v)) }
    ensures depth { IfOk result (λ v. depth (value_view v) ≤ 2) }
{
    triple(
        alloc,
        ("key", Value::String(first)),
        ("range_end", Value::String(end)),
        ("keys_only", Value::Bool(true)),
    )
}

/// These bytes, and one more.
fn with_byte(alloc: Global, bytes: &[u8], last: u8) -> Result<Vec<u8>, AllocError>
    ensures { IfOk result (λ v. v.items ≡ bytes.now ++ last ∷ []) }
{
    let mut longer = Vec::with_capacity(alloc, bytes.len())?;
    longer.extend_from_slice(bytes)?;
    longer.push(last)?;
    Ok(longer)
}

/// The body that asks for these bytes under a key, in place of those of this revision. Of revision
/// 0 is what isn't there.
pub fn swap_request(
    alloc: Global,
    key: &[u8],
    revision: u64,
    bytes: &[u8],
) -> Result<Vec<u8>, AllocError>
    ensures text { IfOk result (λ body.
        body.items ≡ text_of (form.swap key.now revision bytes.now)) }
    ensures again { IfOk result (λ body.
        document body.items ≡ Some (form.swap key.now revision bytes.now)) }
{
    let key = STANDARD.encode(alloc, key)?;
    let bytes = STANDARD.encode(alloc, bytes)?;
    let mut buffer = Buffer::new();
    swap_body(alloc, key.as_str(), buffer.format(revision), bytes.as_str())
}

/// The body that asks for a later revision of what is under a key, where it has this one. Where
/// nothing is there, no bytes come there.
pub fn touch_request(alloc: Global, key: &[u8], revision: u64) -> Result<Vec<u8>, AllocError>
    ensures text { IfOk result (λ body. body.items ≡ text_of (form.touch key.now revision)) }
    ensures again { IfOk result (λ body.
        document body.items ≡ Some (form.touch key.now revision)) }
{
    let key = STANDARD.encode(alloc, key)?;
    let mut buffer = Buffer::new();
    touch_body(alloc, key.as_str(), buffer.format(revision), revision)
}

/// The body that asks the engine to forget what stood under any key before a revision.
pub fn compaction_request(alloc: Global, revision: u64) -> Result<Vec<u8>, AllocError>
    ensures text { IfOk result (λ body. body.items ≡ text_of (form.compaction revision)) }
    ensures again { IfOk result (λ body.
        document body.items ≡ Some (form.compaction revision)) }
{
    let mut buffer = Buffer::new();
    compaction_body(alloc, buffer.format(revision))
}

/// The body of it, by the text of the revision.
fn compaction_body<'a>(alloc: Global, revision: &'a str) -> Result<Vec<u8>, AllocError>
    ensures text { IfOk result (λ body. body.items
        ≡ text_of (form.single (codes "revision") (string revision.now))) }
    ensures again { IfOk result (λ body. document body.items
        ≡ Some (form.single (codes "revision") (string revision.now))) }
{
    let body = compaction(alloc, revision)?;
    to_vec(alloc, &body)
}

/// A revision, as an object.
fn compaction<'a>(alloc: Global, revision: &'a str) -> Result<Value<'a>, AllocError>
    ensures value { IfOk result (λ v.
        value_view v ≡ form.single (codes "revision") (string revision.now)) }
    ensures numbers { IfOk result (λ v. HasNumbers (value_view v)) }
    ensures depth { IfOk result (λ v. depth (value_view v) ≤ 2) }
{
    single(alloc, "revision", Value::String(revision))
}

/// The body of a swap, by the texts of what it names.
fn swap_body<'a>(
    alloc: Global,
    key: &'a str,
    revision: &'a str,
    bytes: &'a str,
) -> Result<Vec<u8>, AllocError>
    ensures text { IfOk result (λ body. body.items
        ≡ text_of (form.transaction key.now revision.now (form.put key.now bytes.now))) }
    ensures again { IfOk result (λ body. document body.items
        ≡ Some (form.transaction key.now revision.now (form.put key.now bytes.now))) }
{
    let success = put(alloc, key, bytes)?;
    transaction(alloc, key, revision, success)
}

/// The body of a touch of this revision, by the texts of what it names.
fn touch_body<'a>(
    alloc: Global,
    key: &'a str,
    digits: &'a str,
    revision: u64,
) -> Result<Vec<u8>, AllocError>
    ensures text { IfOk result (λ body. body.items
        ≡ text_of (form.transaction key.now digits.now (form.touched key.now revision))) }
    ensures again { IfOk result (λ body. document body.items
        ≡ Some (form.transaction key.now digits.now (form.touched key.now revision))) }
{
    let success = touched(alloc, key, revision)?;
    transaction(alloc, key, digits, success)
}

/// What is under a key.
fn range_at<'a>(alloc: Global, key: &'a str) -> Result<Value<'a>, AllocError>
    ensures { IfOk result (λ v. value_view v ≡ form.range_at key.now) }
{
    single(alloc, "key", Value::String(key))
}

/// These bytes come under the key.
fn put<'a>(alloc: Global, key: &'a str, bytes: &'a str) -> Result<Value<'a>, AllocError>
    ensures { IfOk result (λ v. value_view v ≡ form.put key.now bytes.now) }
{
    let put = pair(
        alloc,
        ("key", Value::String(key)),
        ("value", Value::String(bytes)),
    )?;
    single(alloc, "request_put", put)
}

/// The bytes that are under the key come there again.
fn put_again<'a>(alloc: Global, key: &'a str) -> Result<Value<'a>, AllocError>
    ensures { IfOk result (λ v. value_view v ≡ form.put_again key.now) }
{
    let put = pair(
        alloc,
        ("key", Value::String(key)),
        ("ignore_value", Value::Bool(true)),
    )?;
    single(alloc, "request_put", put)
}

/// What comes under the key by a touch of this revision.
fn touched<'a>(alloc: Global, key: &'a str, revision: u64) -> Result<Value<'a>, AllocError>
    ensures value { IfOk result (λ v. value_view v ≡ form.touched key.now revision) }
    ensures numbers { IfOk result (λ v. HasNumbers (value_view v)) }
    ensures depth { IfOk result (λ v. depth (value_view v) ≤ 2) }
{
    if revision == 0 {
        put(alloc, key, "")
    } else {
        put_again(alloc, key)
    }
}

/// The one comparison, of the revision of what is under the key with this.
fn comparison<'a>(alloc: Global, key: &'a str, revision: &'a str) -> Result<Value<'a>, AllocError>
    ensures { IfOk result (λ v. value_view v ≡ form.comparison key.now revision.now) }
{
    triple(
        alloc,
        ("target", Value::String("MOD")),
        ("key", Value::String(key)),
        ("mod_revision", Value::String(revision)),
    )
}

/// A comparison of the revision under a key; what is done where it holds; and a look under the key
/// where it doesn't.
fn transaction<'a>(
    alloc: Global,
    key: &'a str,
    revision: &'a str,
    success: Value<'a>,
) -> Result<Vec<u8>, AllocError>
    requires numbers { HasNumbers (value_view success) }
    requires depth { depth (value_view success) ≤ 2 }
    ensures text { IfOk result (λ body. body.items
        ≡ text_of (form.transaction key.now revision.now (value_view success.entry))) }
    ensures again { IfOk result (λ body. document body.items
        ≡ Some (form.transaction key.now revision.now (value_view success.entry))) }
{
    let compare = comparison(alloc, key, revision)?;
    let range = range_at(alloc, key)?;
    let look = single(alloc, "request_range", range)?;
    let whole = triple(
        alloc,
        ("compare", one(alloc, compare)?),
        ("success", one(alloc, success)?),
        ("failure", one(alloc, look)?),
    )?;
    to_vec(alloc, &whole)
}
