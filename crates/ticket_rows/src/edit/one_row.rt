//! The calls that change one row, by itself: an audit put at a node, and a node or a resource put
//! in the place of the one of its id.

ghost use Rattle.std.specs.Prelude.{◌≡◌, OnOk, OnErr, IfErr, IfNone, IfSome};
ghost use Rattle.ticket_rows.specs.Edit.{node_refusal};
ghost use Rattle.ticket_rows.specs.OneRow as one;
ghost use Rattle.ticket_rows.specs.OneRow.{MayReplaceNode, MayReplaceResource};
ghost use Rattle.ticket_rows.specs.Ticket.{IsValid};

use crate::edit::known_rows::known_node;
use crate::indexed_rows::IndexedRows;
use ticket_items::{Audit, Id, NodeRow, Refusal, Resource};

/// Puts an audit last at a node.
pub fn append(rows: &mut IndexedRows, node: &Id, audit: Audit) -> Result<(), Refusal>
    // Wants: valid rows.
    requires { IsValid rows.old }
    // Proved: An audit goes last at its node, or is refused for want of that node, and valid rows
    // stay valid.
    // By `ok`, `err`, `refused`, `memory`, `valid`.
    ensures ok { OnOk result (rows.new ≡ one.rows_with_audit node.now audit rows.old) }
    ensures err { OnErr result (rows.new ≡ rows.old) }
    ensures refused { IfSome (node_refusal node.now rows.old) (λ e. result ≡ Err e) }
    ensures memory { IfNone (node_refusal node.now rows.old)
        (IfErr result (λ e. e ≡ Refusal.Memory)) }
    ensures valid { IsValid rows.new }
{
    let place = known_node(rows, node)?;
    rows.append(place, audit)?;
    Ok(())
}

/// Puts a node in the place of the one of its id, as deep as that one.
pub fn replace_node(rows: &mut IndexedRows, row: NodeRow)
    // Wants: valid rows, and a node that may stand in place of the one of its id.
    requires valid { IsValid rows.old }
    requires may { MayReplaceNode rows.old row }
    // Proved: A node or a resource is put in place of the one of its id, and valid rows stay
    // valid.
    // By `rows`, `valid`; `one_row::replace_resource`: `rows`, `valid`.
    ensures rows { rows.new ≡ one.replaced_node row rows.old }
    ensures valid { IsValid rows.new }
{
    if let Some(place) = rows.place(&row.id) {
        let mut row = row;
        row.depth = rows.at(place).depth;
        rows.replace(place, row);
    }
}

/// Puts a resource in the place of the one of its id.
pub fn replace_resource(rows: &mut IndexedRows, resource: Resource)
    // Wants: valid rows, and a resource that may stand in place of the one of its id.
    requires valid { IsValid rows.old }
    requires may { MayReplaceResource rows.old resource }
    ensures rows { rows.new ≡ one.replaced_resource resource rows.old }
    ensures valid { IsValid rows.new }
{
    if let Some(home) = rows.home_place(&resource.id) {
        rows.replace_resource(home, resource);
    }
}
