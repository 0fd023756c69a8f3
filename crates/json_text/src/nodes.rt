//! Printing nodes in preorder, each with all below it.

ghost use Rattle.std.specs.Prelude.{◌≡◌, ◌+◌, ◌<◌, ◌^◌, ◌∷◌, codes, drop, false, true};
ghost use Rattle.std.specs.Prelude.{IfOk, IfSome, MatchOption, OnOk};
ghost use Rattle.json.specs.Token.{Token as TokenSeen};
ghost use Rattle.serde_json.specs.Data.{array};
ghost use Rattle.json_items.specs.TicketForm.{row_has_names, row_has_texts};
ghost use Rattle.json_text.specs.TicketText.{is_front_deeper, shown_children, shown_last};
ghost use Rattle.json_text.specs.TicketText.{shown_node, IsDeeperAt};
ghost use Rattle.json_text.specs.Nodes.{front_members, IsFrontValid, IsLastValid, IsWalked};
ghost use Rattle.json_text.specs.Printed.{AreMembersPrinted};
ghost use Rattle.json_text.specs.Printed.{data_tokens, IsAppended, IsPrinted, IsReadAgain};

use crate::marked::shown_status;
use crate::members::{print_member, print_text};
use crate::pools::print_pool;
use json::Writer;
use std::alloc::{AllocError, Global};
use ticket_items::{Marks, NodeRow};
use ticket_rows::Rows;

/// Prints the members of a node in front of its children.
pub fn print_front(out: &mut Writer, row: &NodeRow) -> Result<(), AllocError>
    ensures printed { OnOk result (AreMembersPrinted (front_members row.now) out.old out.new) }
    ensures valid { OnOk result (IsFrontValid row.now) }
{
    print_member(out, "Attr", &row.attrs)?;
    print_member(out, "AuditPool", &row.audits)?;
    print_member(out, "ID", &row.id)
}

/// Prints the members of a node of a ticket that shows these marks behind its children.
pub fn print_last(
    alloc: Global,
    out: &mut Writer,
    row: &NodeRow,
    marks: &Marks,
) -> Result<(), AllocError>
    ensures printed { OnOk result
        (AreMembersPrinted (shown_last marks.now row.now) out.old out.new) }
    ensures valid { OnOk result (IsLastValid row.now) }
{
    print_member(out, "JobPartID", &row.job_part)?;
    print_member(out, "ResourceLinkPool", &row.links)?;
    print_pool(alloc, out, row.resources.as_slice(), marks)?;
    print_text(out, "Status", shown_status(marks, row))?;
    print_member(out, "Type", &row.kind)
}

/// The row at an index, if there is one and it stands deeper than `depth`.
fn deeper_at<'a>(rows: &Rows<'a>, at: usize, depth: u32) -> Option<&'a NodeRow>
    ensures row { MatchOption result
        (is_front_deeper depth (drop at rows.now) ≡ false)
        (λ r. IsDeeperAt depth rows.now at r.now) }
    ensures next { IfSome result (λ _. at + 1 < 2 ^ 64) }
{
    if at >= rows.len() {
        return None;
    }
    let row = rows.at(at);
    if depth < row.depth { Some(row) } else { None }
}

/// Prints a node with all below it: of the rows from an index on, those in front that stand deeper.
/// The index behind them is handed back. All their names and texts are valid.
#[cycle(nodes)]
fn print_node(
    alloc: Global,
    out: &mut Writer,
    row: &NodeRow,
    rows: &Rows<'_>,
    from: usize,
    marks: &Marks,
) -> Result<usize, AllocError>
    ensures printed { OnOk result (IsPrinted
        (shown_node marks.now row.now (drop from rows.now)) out.old out.new) }
    ensures end { IfOk result (λ end. IsWalked marks.now row.now.depth rows.now from end) }
    ensures names { OnOk result (row_has_names row.now ≡ true) }
    ensures texts { OnOk result (row_has_texts row.now ≡ true) }
{
    out.begin_object()?;
    print_front(out, row)?;
    let end = print_children(alloc, out, row.depth, rows, from, marks)?;
    print_last(alloc, out, row, marks)?;
    out.end_object()?;
    Ok(end)
}

/// Prints the nodes from an index on that stand deeper than `depth` as the children of a node, each
/// with all below it. The index behind them is handed back. All their names and texts are valid.
#[cycle(nodes)]
pub fn print_children(
    alloc: Global,
    out: &mut Writer,
    depth: u32,
    rows: &Rows<'_>,
    from: usize,
    marks: &Marks,
) -> Result<usize, AllocError>
    ensures printed { OnOk result (IsAppended
        (TokenSeen.key (codes "JDF")
        ∷ data_tokens (array (shown_children marks.now depth (drop from rows.now))))
        out.old out.new) }
    ensures again { OnOk result
        (IsReadAgain (array (shown_children marks.now depth (drop from rows.now)))) }
    ensures end { IfOk result (λ end. IsWalked marks.now depth rows.now from end) }
{
    out.key("JDF")?;
    out.begin_array()?;
    let mut at = from;
    while let Some(row) = deeper_at(rows, at, depth) {
        at = print_node(alloc, out, row, rows, at + 1, marks)?;
    }
    out.end_array()?;
    Ok(at)
}
