//! Printing lists.

ghost use Rattle.std.specs.Prelude.{◌≡◌, true, OnOk};
ghost use Rattle.std.specs.List.{list_all};
ghost use Rattle.serde_json.specs.Data.{array};
ghost use Rattle.json_items.specs.Listed.{data_items};
ghost use Rattle.json_text.specs.Printed.{IsPrinted};

use crate::printed::PrintForm;
use json::Writer;
use std::alloc::AllocError;
use ticket_items::Items;

/// Prints a list. The names and texts of its items are valid.
pub fn print_list<T: PrintForm>(out: &mut Writer, items: &[T]) -> Result<(), AllocError>
    ensures printed { OnOk result
        (IsPrinted (array (data_items T.written items.now)) out.old out.new) }
    ensures names { OnOk result (list_all T.has_names items.now ≡ true) }
    ensures texts { OnOk result (list_all T.has_texts items.now ≡ true) }
{
    out.begin_array()?;
    for item in items {
        item.print(out)?;
    }
    out.end_array()
}

impl<T: PrintForm> PrintForm for Items<T> {
    ghost written = { λ items. array (data_items T.written items) };

    fn print(&self, out: &mut Writer) -> Result<(), AllocError> {
        print_list(out, self.as_slice())
    }
}
