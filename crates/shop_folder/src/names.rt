//! Names of files.

ghost use Rattle.std.specs.Prelude.{◌≡◌};
ghost use Rattle.shop_folder.specs.Names as names;

use ticket_items::is_name;

fn has_no_dot(name: &str) -> bool
    ensures { result ≡ names.has_no_dot name.now }
{
    name.as_bytes().iter().all(|byte| *byte != b'.')
}

/// Whether a text may name a controller of a folder: a name of our profile without a dot. So no
/// name leads out of the folder, or to what a save or an editor puts beside a file.
pub fn is_file_name(text: &str) -> bool
    // Proved: What may name a file of a folder is a name without a dot.
    ensures { result ≡ names.is_file_name text.now }
{
    is_name(text) && has_no_dot(text)
}
