ghost use Rattle.std.specs.Prelude.{◌≡◌, true, OnOk};
ghost use Rattle.serde_json.specs.Data.{Data};
ghost use Rattle.json_text.specs.Printed.{IsPrinted};

use json::Writer;
use json_items::Form;
use std::alloc::AllocError;

/// A type that is printed token by token, with no value of it.
pub trait PrintForm: Form {
    /// The data that is printed.
    ghost written: { Self → Data };

    /// Prints it. Its names and texts are valid.
    fn print(&self, out: &mut Writer) -> Result<(), AllocError>
        // Proved: The tokens of a type's data are appended, and read as it; its ids, names and
        // texts are valid.
        // By `printed`, `names`, `texts`; `print_marked`, `print_list`: `printed`, `names`,
        // `texts`.
        ensures printed { OnOk result (IsPrinted (written self.now) out.old out.new) }
        ensures names { OnOk result (Self.has_names self.now ≡ true) }
        ensures texts { OnOk result (Self.has_texts self.now ≡ true) };
}
