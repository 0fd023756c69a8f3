//! Printing tickets and parts straight into a text, with no value of them.

ghost use Rattle.std.specs.Prelude.{◌≡◌, ◌≤◌, ◌++◌, Ok, false, OnOk};
ghost use Rattle.serde_json.specs.Data.{depth};
ghost use Rattle.serde_json.specs.Written.{compact_text, has_float};
ghost use Rattle.json_items.specs.TicketForm.{ticket_read};
ghost use Rattle.json_items.specs.PartForm.{part_read};
ghost use Rattle.json_text.specs.PartWritten.{part_data};
ghost use Rattle.json_text.specs.Written.{shown_data, ticket_data};
ghost use Rattle.json_text.specs.Printed.{IsPrinted};

use json::Writer;
use json_text::{no_marks, written_text};
use std::alloc::{AllocError, Global};
use std::mem;
use ticket_tree::{Marks, Part, Ticket};

/// Prints a ticket as its `ticket_value`, which `ticket_of` reads as that ticket. It leaves room in
/// the 127 levels that are read, so that it can stand in a larger document.
pub fn print_ticket(alloc: Global, out: &mut Writer, ticket: &Ticket) -> Result<(), AllocError>
    // Proved: What is printed is read again as it was.
    // By `printed`, `again`, `plain`, `low`; `print_part`: `printed`, `again`, `plain`, `low`.
    ensures printed { OnOk result (IsPrinted (ticket_data ticket.now) out.old out.new) }
    ensures again { OnOk result (ticket_read (ticket_data ticket.now) ≡ Ok ticket.now) }
    ensures plain { OnOk result (has_float (ticket_data ticket.now) ≡ false) }
    ensures low { OnOk result (depth (ticket_data ticket.now) ≤ 68) }
{
    json_text::print_ticket(alloc, out, ticket, &no_marks(alloc))
}

/// Prints a part as its `part_value`, which `part_of` reads as that part. It leaves room in the 127
/// levels that are read, so that it can stand in a larger document.
pub fn print_part(alloc: Global, out: &mut Writer, part: &Part) -> Result<(), AllocError>
    ensures printed { OnOk result (IsPrinted (part_data part.now) out.old out.new) }
    ensures again { OnOk result (part_read (part_data part.now) ≡ Ok part.now) }
    ensures plain { OnOk result (has_float (part_data part.now) ≡ false) }
    ensures low { OnOk result (depth (part_data part.now) ≤ 68) }
{
    json_text::print_part(alloc, out, part)
}

/// Appends the text of a ticket that shows these marks: the one that `text_of` gives of its
/// `shown_value`. After an error nothing of the text is left.
pub fn push_shown_text(
    alloc: Global,
    text: &mut Vec<u8>,
    ticket: &Ticket,
    marks: &Marks,
) -> Result<(), AllocError>
    ensures { OnOk result (text.new.items
        ≡ text.old.items ++ compact_text (shown_data marks.now ticket.now)) }
{
    let mut out = Writer::new(mem::replace(text, Vec::new(alloc)));
    json_text::print_ticket(alloc, &mut out, ticket, marks)?;
    *text = written_text(out);
    Ok(())
}

/// Appends the text of a ticket: the one that `text_of` gives of its `ticket_value`. After an error
/// nothing of the text is left.
pub fn push_ticket_text(
    alloc: Global,
    text: &mut Vec<u8>,
    ticket: &Ticket,
) -> Result<(), AllocError>
    ensures { OnOk result (text.new.items
        ≡ text.old.items ++ compact_text (ticket_data ticket.now)) }
{
    push_shown_text(alloc, text, ticket, &no_marks(alloc))
}

/// Appends the text of a part: the one that `text_of` gives of its `part_value`. After an error
/// nothing of the text is left.
pub fn push_part_text(alloc: Global, text: &mut Vec<u8>, part: &Part) -> Result<(), AllocError>
    // Proved: A part's text is that of its value.
    ensures { OnOk result (text.new.items
        ≡ text.old.items ++ compact_text (part_data part.now)) }
{
    let mut out = Writer::new(mem::replace(text, Vec::new(alloc)));
    json_text::print_part(alloc, &mut out, part)?;
    *text = written_text(out);
    Ok(())
}
