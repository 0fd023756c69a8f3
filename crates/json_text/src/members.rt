//! Printing one member of an object.

ghost use Rattle.std.specs.Prelude.{◌≡◌, ◌∷◌, true, OnOk};
ghost use Rattle.std.specs.List.{list_all};
ghost use Rattle.json.specs.Token.{Token as TokenSeen};
ghost use Rattle.serde_json.specs.Data.{array, string};
ghost use Rattle.json_items.specs.Listed.{data_items};
ghost use Rattle.json_text.specs.Printed.{data_tokens, IsAppended, IsReadAgain};

use crate::lists::print_list;
use crate::printed::PrintForm;
use json::Writer;
use std::alloc::AllocError;

/// Prints an item under a name. Its names and texts are valid.
pub fn print_member<T: PrintForm>(out: &mut Writer, name: &str, item: &T) -> Result<(), AllocError>
    // Proved: The tokens of a member are appended, its name and then its data, which is read as
    // it; its ids, names and texts are valid.
    // By `printed`, `again`, `names`, `texts`; `print_items`, `print_showing`: `printed`, `again`,
    // `names`, `texts`; `print_text`.
    ensures printed { OnOk result
        (IsAppended (TokenSeen.key name.now ∷ data_tokens (T.written item.now)) out.old out.new) }
    ensures again { OnOk result (IsReadAgain (T.written item.now)) }
    ensures names { OnOk result (T.has_names item.now ≡ true) }
    ensures texts { OnOk result (T.has_texts item.now ≡ true) }
{
    out.key(name)?;
    item.print(out)
}

/// Prints a text under a name.
pub fn print_text(out: &mut Writer, name: &str, text: &str) -> Result<(), AllocError>
    ensures { OnOk result
        (IsAppended (TokenSeen.key name.now ∷ data_tokens (string text.now)) out.old out.new) }
{
    out.key(name)?;
    out.string(text)
}

/// Prints a list of items under a name. Their names and texts are valid.
pub fn print_items<T: PrintForm>(
    out: &mut Writer,
    name: &str,
    items: &[T],
) -> Result<(), AllocError>
    ensures printed { OnOk result (IsAppended
        (TokenSeen.key name.now ∷ data_tokens (array (data_items T.written items.now)))
        out.old out.new) }
    ensures again { OnOk result (IsReadAgain (array (data_items T.written items.now))) }
    ensures names { OnOk result (list_all T.has_names items.now ≡ true) }
    ensures texts { OnOk result (list_all T.has_texts items.now ≡ true) }
{
    out.key(name)?;
    print_list(out, items)
}
