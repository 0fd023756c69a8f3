//! Printing parts.

ghost use Rattle.std.specs.Prelude.{◌≡◌, true, OnOk};
ghost use Rattle.std.specs.List.{list_all};
ghost use Rattle.ticket_items.specs.Names.{is_name};
ghost use Rattle.ticket_items.specs.SpawnId.{is_spawn_number};
ghost use Rattle.ticket_rows.specs.Copies.{with_copies};
ghost use Rattle.ticket_rows.specs.Ticket.{IsValid};
ghost use Rattle.json_items.specs.TicketForm.{row_has_names, row_has_texts};
ghost use Rattle.json_items.specs.Ancestors.{ancestor_has_names};
ghost use Rattle.json_items.specs.PartForm.{copies_have_names, copies_have_texts};
ghost use Rattle.json_text.specs.PartWritten.{part_data};
ghost use Rattle.json_text.specs.Printed.{IsPrinted};

use crate::marked::no_marks;
use crate::members::{print_items, print_member, print_text};
use crate::nodes::{print_children, print_front};
use crate::pools::print_root_pool;
use json::Writer;
use std::alloc::{AllocError, Global};
use ticket_rows::Rows;
use ticket_tree::Part;

/// Prints a part. Its names and texts are valid.
pub fn print_part(alloc: Global, out: &mut Writer, part: &Part) -> Result<(), AllocError>
    ensures printed { OnOk result (IsPrinted (part_data part.now) out.old out.new) }
    ensures valid { IsValid (with_copies part.now.rows part.now.rw part.now.ro) }
    ensures number { is_spawn_number part.now.spawn_id ≡ true }
    ensures job { OnOk result (is_name part.now.job_id ≡ true) }
    ensures ancestors { OnOk result (list_all ancestor_has_names part.now.ancestors ≡ true) }
    ensures names { OnOk result (list_all row_has_names part.now.rows ≡ true) }
    ensures texts { OnOk result (list_all row_has_texts part.now.rows ≡ true) }
    ensures copy_names { OnOk result (copies_have_names part.now.rw part.now.ro ≡ true) }
    ensures copy_texts { OnOk result (copies_have_texts part.now.rw part.now.ro ≡ true) }
{
    let rows = Rows::new(part.rows());
    let spawn = part.spawn_id().to_id(alloc)?;
    let Some(root) = rows.first() else {
        return out.null();
    };
    out.begin_object()?;
    print_items(out, "AncestorPool", part.ancestors())?;
    print_front(out, root)?;
    print_children(alloc, out, root.depth, &rows, 1, &no_marks(alloc))?;
    print_member(out, "JobID", part.job())?;
    print_member(out, "JobPartID", &root.job_part)?;
    print_member(out, "ResourceLinkPool", &root.links)?;
    print_root_pool(alloc, out, root.resources.as_slice(), part, spawn.as_str())?;
    print_text(out, "SpawnID", spawn.as_str())?;
    print_member(out, "Status", &root.status)?;
    print_member(out, "Type", &root.kind)?;
    out.end_object()
}
