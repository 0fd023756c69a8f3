//! Printing pools of resources.

ghost use Rattle.std.specs.Prelude.{◌≡◌, ◌∷◌, codes, true, OnOk};
ghost use Rattle.std.specs.List.{list_all};
ghost use Rattle.json.specs.Token.{Token as TokenSeen};
ghost use Rattle.serde_json.specs.Data.{array};
ghost use Rattle.json_items.specs.Listed.{data_items};
ghost use Rattle.json_items.specs.PartForm.{copies_have_names, copies_have_texts};
ghost use Rattle.json_items.specs.Resources.{all_showing, raw_data, resource_has_names};
ghost use Rattle.json_items.specs.Resources.{resource_has_texts};
ghost use Rattle.json_text.specs.Marked.{marked_pool};
ghost use Rattle.json_text.specs.PartWritten.{root_pool};
ghost use Rattle.json_text.specs.Written.{pool_data};
ghost use Rattle.json_text.specs.Printed.{data_tokens, AreItemsPrinted, IsAppended, IsReadAgain};

use crate::items::resources::print_marked;
use crate::marked::showing_of;
use json::Writer;
use json_items::Showing;
use std::alloc::{AllocError, Global};
use ticket_tree::{Marks, Part, Resource};

/// Prints the ResourcePool of a node of a ticket that shows these marks. The names and texts of its
/// resources are valid.
pub fn print_pool(
    alloc: Global,
    out: &mut Writer,
    resources: &[Resource],
    marks: &Marks,
) -> Result<(), AllocError>
    ensures printed { OnOk result (IsAppended
        (TokenSeen.key (codes "ResourcePool")
        ∷ data_tokens (array (pool_data (marked_pool marks.now resources.now))))
        out.old out.new) }
    ensures again { OnOk result
        (IsReadAgain (array (pool_data (marked_pool marks.now resources.now)))) }
    ensures names { OnOk result (list_all resource_has_names resources.now ≡ true) }
    ensures texts { OnOk result (list_all resource_has_texts resources.now ≡ true) }
{
    out.key("ResourcePool")?;
    out.begin_array()?;
    for resource in resources {
        let shown = showing_of(alloc, marks, resource)?;
        print_marked(out, resource, &shown)?;
    }
    out.end_array()
}

/// Prints resources that all show this of spawns, one after another. Their names and texts are
/// valid.
fn print_each(out: &mut Writer, resources: &[Resource], shown: &Showing) -> Result<(), AllocError>
    ensures printed { OnOk result
        (AreItemsPrinted raw_data (all_showing shown.now resources.now) out.old out.new) }
    ensures names { OnOk result (list_all resource_has_names resources.now ≡ true) }
    ensures texts { OnOk result (list_all resource_has_texts resources.now ≡ true) }
{
    for resource in resources {
        print_marked(out, resource, shown)?;
    }
    Ok(())
}

/// Prints the ResourcePool of a part's root, of which these are its own resources. The copies stand
/// behind them and show the spawn of this text. Names and texts are valid.
pub fn print_root_pool(
    alloc: Global,
    out: &mut Writer,
    resources: &[Resource],
    part: &Part,
    spawn: &str,
) -> Result<(), AllocError>
    ensures printed { OnOk result (IsAppended
        (TokenSeen.key (codes "ResourcePool") ∷ data_tokens (array (pool_data
        (root_pool spawn.now resources.now part.now.rw part.now.ro))))
        out.old out.new) }
    ensures again { OnOk result (IsReadAgain (array (pool_data
        (root_pool spawn.now resources.now part.now.rw part.now.ro)))) }
    ensures names { OnOk result (list_all resource_has_names resources.now ≡ true) }
    ensures texts { OnOk result (list_all resource_has_texts resources.now ≡ true) }
    ensures copy_names { OnOk result (copies_have_names part.now.rw part.now.ro ≡ true) }
    ensures copy_texts { OnOk result (copies_have_texts part.now.rw part.now.ro ≡ true) }
{
    out.key("ResourcePool")?;
    out.begin_array()?;
    print_each(out, resources, &Showing::nothing(alloc))?;
    print_each(out, part.rw(), &Showing::rw(alloc, spawn)?)?;
    print_each(out, part.ro(), &Showing::ro(alloc, spawn)?)?;
    out.end_array()
}

/// Prints resources that all show this of spawns as a list under a name. Their names and texts are
/// valid.
pub fn print_showing(
    out: &mut Writer,
    name: &str,
    resources: &[Resource],
    shown: &Showing,
) -> Result<(), AllocError>
    ensures printed { OnOk result (IsAppended
        (TokenSeen.key name.now
        ∷ data_tokens (array (data_items raw_data (all_showing shown.now resources.now))))
        out.old out.new) }
    ensures again { OnOk result
        (IsReadAgain (array (data_items raw_data (all_showing shown.now resources.now)))) }
    ensures names { OnOk result (list_all resource_has_names resources.now ≡ true) }
    ensures texts { OnOk result (list_all resource_has_texts resources.now ≡ true) }
{
    out.key(name)?;
    out.begin_array()?;
    print_each(out, resources, shown)?;
    out.end_array()
}
