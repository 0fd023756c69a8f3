//! Tickets, parts and edits as JSON values: what their text is read as.

ghost use Rattle.std.specs.Prelude.{◌≡◌, ◌≤◌, Ok, false, IfOk};
ghost use Rattle.serde_json.specs.Data.{depth};
ghost use Rattle.serde_json.specs.Read.{max_depth};
ghost use Rattle.serde_json.specs.View.{view};
ghost use Rattle.serde_json.specs.Written.{has_float};
ghost use Rattle.json_items.specs.TicketForm.{edit_read, ticket_read};
ghost use Rattle.json_items.specs.PartForm.{part_read};
ghost use Rattle.json_text.specs.PartWritten.{part_data};
ghost use Rattle.json_text.specs.Written.{edit_data, shown_data, ticket_data};

use crate::print::{print_part, print_ticket};
use crate::text::value_printed;
use json::Writer;
use json_text::PrintForm;
use serde_json::Value;
use std::alloc::{AllocError, Global};
use ticket_tree::{Edit, Marks, Part, Ticket};

/// A ticket as a value, which `ticket_of` reads as that ticket. It leaves room in the 127 levels
/// that are read, so that it can stand in a larger document.
pub fn ticket_value(alloc: Global, ticket: &Ticket) -> Result<Value, AllocError>
    // Proved: What is written is read again as it was.
    // By `value`, `again`, `plain`, `nests`; `part_value`, `edit_value`: `value`, `again`,
    // `plain`, `nests`.
    ensures value { IfOk result (λ v. view v ≡ ticket_data ticket.now) }
    ensures again { IfOk result (λ v. ticket_read (view v) ≡ Ok ticket.now) }
    ensures plain { IfOk result (λ v. has_float (view v) ≡ false) }
    ensures nests { IfOk result (λ v. depth (view v) ≤ max_depth) }
    // Proved: The value of a ticket and of a part nests at most 68 deep, so that it may stand
    // within a document.
    // By `low`; `part_value`: `low`.
    ensures low { IfOk result (λ v. depth (view v) ≤ 68) }
{
    let mut out = Writer::new(Vec::new(alloc));
    print_ticket(alloc, &mut out, ticket)?;
    value_printed(alloc, out)
}

/// A ticket that shows these marks as a value, in the form of tickets: the Status `Spawned` at the
/// marked nodes, and the SpawnStatus and SpawnIDs of the marks at their resources. A mark of an id
/// that isn't in the ticket shows nothing; of two marks of a resource the first does. Nothing reads
/// it again.
pub fn shown_value(alloc: Global, ticket: &Ticket, marks: &Marks) -> Result<Value, AllocError>
    // Proved: The value and the text of a shown ticket are of its data with its marks, and a
    // ticket's text of its data without.
    // By `value`, `plain`, `nests`; `push_shown_text`, `push_ticket_text`.
    ensures value { IfOk result (λ v. view v ≡ shown_data marks.now ticket.now) }
    ensures plain { IfOk result (λ v. has_float (view v) ≡ false) }
    ensures nests { IfOk result (λ v. depth (view v) ≤ max_depth) }
{
    let mut out = Writer::new(Vec::new(alloc));
    json_text::print_ticket(alloc, &mut out, ticket, marks)?;
    value_printed(alloc, out)
}

/// A part as a value, which `part_of` reads as that part. It leaves room in the 127 levels that are
/// read, so that it can stand in a larger document.
pub fn part_value(alloc: Global, part: &Part) -> Result<Value, AllocError>
    ensures value { IfOk result (λ v. view v ≡ part_data part.now) }
    ensures again { IfOk result (λ v. part_read (view v) ≡ Ok part.now) }
    ensures plain { IfOk result (λ v. has_float (view v) ≡ false) }
    ensures nests { IfOk result (λ v. depth (view v) ≤ max_depth) }
    ensures low { IfOk result (λ v. depth (view v) ≤ 68) }
{
    let mut out = Writer::new(Vec::new(alloc));
    print_part(alloc, &mut out, part)?;
    value_printed(alloc, out)
}

/// An edit as a value, which `edit_of` reads as that edit.
pub fn edit_value(alloc: Global, edit: &Edit) -> Result<Value, AllocError>
    ensures value { IfOk result (λ v. view v ≡ edit_data edit.now) }
    ensures again { IfOk result (λ v. edit_read (view v) ≡ Ok edit.now) }
    ensures plain { IfOk result (λ v. has_float (view v) ≡ false) }
    ensures nests { IfOk result (λ v. depth (view v) ≤ max_depth) }
{
    let mut out = Writer::new(Vec::new(alloc));
    edit.print(&mut out)?;
    value_printed(alloc, out)
}
