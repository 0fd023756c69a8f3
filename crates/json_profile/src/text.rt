ghost use Rattle.std.specs.Prelude.{◌≡◌, ◌⊎◌, ◌≤◌, [], None, Some, false, IfOk, IfErr, IsErrOf};
ghost use Rattle.std.specs.Str.{IsUtf8};
ghost use Rattle.serde_json.specs.Data.{Data, depth};
ghost use Rattle.serde_json.specs.Read.{max_depth, read};
ghost use Rattle.serde_json.specs.View.{view};
ghost use Rattle.serde_json.specs.Written.{compact_text, has_float};
ghost use Rattle.json_text.specs.Printed.{data_tokens, IsReadAgain};

use json::Writer;
use json_text::written_text;
use serde_json::Value;
use std::alloc::{AllocError, Global};
use ticket_tree::Refusal;

/// The JSON value that the bytes are. Refuses `NotJson` where they aren't UTF-8, are no JSON, or
/// nest deeper than 127 levels.
pub fn value_of(alloc: Global, bytes: &[u8]) -> Result<Value, Refusal>
    // Proved: Bytes are refused as `NotJson` just where `serde_json` reads no value of them.
    // By `ok`, `nests`, `not_json`, `kinds`.
    ensures ok { IfOk result (λ v. IsUtf8 bytes.now × (read bytes.now ≡ Some (view v))) }
    ensures nests { IfOk result (λ v. depth (view v) ≤ max_depth) }
    ensures not_json { IsErrOf result Refusal.NotJson → IsUtf8 bytes.now → read bytes.now ≡ None }
    ensures kinds { IfErr result (λ e. (e ≡ Refusal.NotJson) ⊎ (e ≡ Refusal.Memory)) }
{
    match Value::from_slice(alloc, bytes) {
        Ok(value) => Ok(value),
        Err(error) if error.is_memory() => Err(Refusal::Memory),
        Err(_) => Err(Refusal::NotJson),
    }
}

/// The value of what was printed, which is what its text is read as.
pub fn value_printed(alloc: Global, out: Writer) -> Result<Value, AllocError>
    // Proved: A value of what was printed is what its text is read as, where nothing stood before
    // and it nests no deeper than is read.
    ensures { (d : Data) → out.before ≡ [] → out.tokens ≡ data_tokens d → IsReadAgain d
        → depth d ≤ max_depth → IfOk result (λ v. view v ≡ d) }
{
    let text = written_text(out);
    match value_of(alloc, text.as_slice()) {
        Ok(value) => Ok(value),
        Err(_) => Err(AllocError),
    }
}

/// The compact JSON text of a value: no white space, and the members of each object in byte order.
pub fn text_of(alloc: Global, value: &Value) -> Result<Vec<u8>, AllocError>
    // Proved: A value's text is compact, if no float stands in it, and read again as it, if it
    // nests no deeper than is read.
    // By `text`, `utf8`, `reads_back`.
    ensures text { IfOk result (λ b. has_float (view value.now) ≡ false
        → b.items ≡ compact_text (view value.now)) }
    ensures utf8 { IfOk result (λ b. IsUtf8 b.items) }
    ensures reads_back { IfOk result (λ b. depth (view value.now) ≤ max_depth
        → read b.items ≡ Some (view value.now)) }
{
    value.to_vec(alloc)
}
