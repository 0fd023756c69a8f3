//! The text of what was printed.

ghost use Rattle.std.specs.Prelude.{◌≡◌, ◌≤◌, [], ◌++◌, Some};
ghost use Rattle.std.specs.Str.{IsUtf8};
ghost use Rattle.serde_json.specs.Data.{Data, depth};
ghost use Rattle.serde_json.specs.Read.{max_depth, read};
ghost use Rattle.serde_json.specs.Written.{compact_text};
ghost use Rattle.json_text.specs.Printed.{data_tokens, IsReadAgain};

use json::Writer;

/// The text of data that was printed, which is read as it, behind what stood before.
pub fn written_text(out: Writer) -> Vec<u8>
    // Proved: The tokens of data are its compact text, which is read as it where nothing stood
    // before and the data nests no deeper than is read.
    // By `text`, `again`, `utf8`.
    ensures text { (d : Data) → out.tokens ≡ data_tokens d
        → result.items ≡ out.before ++ compact_text d }
    ensures again { (d : Data) → out.before ≡ [] → out.tokens ≡ data_tokens d → IsReadAgain d
        → depth d ≤ max_depth → read result.items ≡ Some d }
    ensures utf8 { out.before ≡ [] → IsUtf8 result.items }
{
    out.into_inner()
}
