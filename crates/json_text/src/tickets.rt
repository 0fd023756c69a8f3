//! Printing tickets.

ghost use Rattle.std.specs.Prelude.{◌≡◌, true, OnOk};
ghost use Rattle.std.specs.List.{list_all};
ghost use Rattle.ticket_items.specs.Names.{is_name};
ghost use Rattle.ticket_rows.specs.Ticket.{IsValid};
ghost use Rattle.json_items.specs.TicketForm.{row_has_names, row_has_texts};
ghost use Rattle.json_text.specs.Written.{shown_data};
ghost use Rattle.json_text.specs.Printed.{IsPrinted};

use crate::members::print_member;
use crate::nodes::{print_children, print_front, print_last};
use json::Writer;
use std::alloc::{AllocError, Global};
use ticket_tree::{Marks, Ticket};

/// Prints a ticket that shows these marks. Its names and texts are valid.
pub fn print_ticket(
    alloc: Global,
    out: &mut Writer,
    ticket: &Ticket,
    marks: &Marks,
) -> Result<(), AllocError>
    // Proved: The tokens of a ticket with its marks, and of a part, are appended, and read as it;
    // its rows, ids, names and texts are valid.
    // By `printed`, `valid`, `job`, `names`, `texts`; `print_part`: `printed`, `valid`, `number`,
    // `job`, `ancestors`, `names`, `texts`, `copy_names`, `copy_texts`.
    ensures printed { OnOk result (IsPrinted (shown_data marks.now ticket.now) out.old out.new) }
    ensures valid { IsValid ticket.now.rows }
    ensures job { OnOk result (is_name ticket.now.job_id ≡ true) }
    ensures names { OnOk result (list_all row_has_names ticket.now.rows ≡ true) }
    ensures texts { OnOk result (list_all row_has_texts ticket.now.rows ≡ true) }
{
    let rows = ticket.rows();
    let Some(root) = rows.first() else {
        return out.null();
    };
    out.begin_object()?;
    print_front(out, root)?;
    print_children(alloc, out, root.depth, &rows, 1, marks)?;
    print_member(out, "JobID", ticket.job())?;
    print_last(alloc, out, root, marks)?;
    out.end_object()
}
