//! The edits of a part's rows that set something of one row. They want the ids to be distinct, so
//! that one row alone has the id.

ghost use Rattle.std.specs.Prelude.{◌≡◌, true, OnOk, OnErr, IfErr, IfNone, IfSome, IsOk};
ghost use Rattle.ticket_items.specs.Ids.{are_distinct};
ghost use Rattle.ticket_rows.specs.Edit.{edited_rows, refusal_of};
ghost use Rattle.ticket_rows.specs.Ticket.{ids};

use crate::edit::walks::{known_home, known_node, open_to_status};
use ticket_items::{Audit, Edit, Id, Name, NodeRow, Refusal, Text};

/// Gives a node another Status.
pub fn set_status(rows: &mut Vec<NodeRow>, node: &Id, status: Name) -> Result<(), Refusal>
    requires { are_distinct (ids rows.old.items) ≡ true }
    ensures ok { OnOk result (rows.new.items
        ≡ edited_rows (Edit.SetStatus node.now status) 0 rows.old.items) }
    ensures err { OnErr result (rows.new.items ≡ rows.old.items) }
    ensures refused { IfSome (refusal_of (Edit.SetStatus node.now status) rows.old.items)
        (λ e. result ≡ Err e) }
    ensures memory { IfNone (refusal_of (Edit.SetStatus node.now status) rows.old.items)
        (IsOk result) }
{
    let place = open_to_status(rows.as_slice(), node, &status)?;
    rows[place].status = status;
    Ok(())
}

/// Gives a node an attribute.
pub fn set_attr(rows: &mut Vec<NodeRow>, node: &Id, name: Name, value: Text) -> Result<(), Refusal>
    requires { are_distinct (ids rows.old.items) ≡ true }
    ensures ok { OnOk result (rows.new.items
        ≡ edited_rows (Edit.SetAttr node.now name value) 0 rows.old.items) }
    ensures err { OnErr result (rows.new.items ≡ rows.old.items) }
    ensures refused { IfSome (refusal_of (Edit.SetAttr node.now name value) rows.old.items)
        (λ e. result ≡ Err e) }
    ensures memory { IfNone (refusal_of (Edit.SetAttr node.now name value) rows.old.items)
        (IfErr result (λ e. e ≡ Refusal.Memory)) }
{
    let place = known_node(rows.as_slice(), node)?;
    rows[place].attrs.set(name, value)?;
    Ok(())
}

/// Gives a resource another Status.
pub fn set_resource_status(
    rows: &mut Vec<NodeRow>,
    resource: &Id,
    status: Name,
) -> Result<(), Refusal>
    requires { are_distinct (ids rows.old.items) ≡ true }
    ensures ok { OnOk result (rows.new.items
        ≡ edited_rows (Edit.SetResStatus resource.now status) 0 rows.old.items) }
    ensures err { OnErr result (rows.new.items ≡ rows.old.items) }
    ensures refused { IfSome (refusal_of (Edit.SetResStatus resource.now status) rows.old.items)
        (λ e. result ≡ Err e) }
    ensures memory { IfNone (refusal_of (Edit.SetResStatus resource.now status) rows.old.items)
        (IsOk result) }
{
    let home = known_home(rows.as_slice(), resource)?;
    rows[home].resources.set_status(resource, status);
    Ok(())
}

/// Gives a resource an attribute.
pub fn set_resource_attr(
    rows: &mut Vec<NodeRow>,
    resource: &Id,
    name: Name,
    value: Text,
) -> Result<(), Refusal>
    requires { are_distinct (ids rows.old.items) ≡ true }
    ensures ok { OnOk result (rows.new.items
        ≡ edited_rows (Edit.SetResAttr resource.now name value) 0 rows.old.items) }
    ensures err { OnErr result (rows.new.items ≡ rows.old.items) }
    ensures refused { IfSome (refusal_of (Edit.SetResAttr resource.now name value) rows.old.items)
        (λ e. result ≡ Err e) }
    ensures memory { IfNone (refusal_of (Edit.SetResAttr resource.now name value) rows.old.items)
        (IfErr result (λ e. e ≡ Refusal.Memory)) }
{
    let home = known_home(rows.as_slice(), resource)?;
    rows[home].resources.set_attr(resource, name, value)?;
    Ok(())
}

/// Puts a note at a node.
pub fn note(rows: &mut Vec<NodeRow>, node: &Id, text: Text, at: u64) -> Result<(), Refusal>
    requires { are_distinct (ids rows.old.items) ≡ true }
    ensures ok { OnOk result (rows.new.items
        ≡ edited_rows (Edit.Note node.now text) at rows.old.items) }
    ensures err { OnErr result (rows.new.items ≡ rows.old.items) }
    ensures refused { IfSome (refusal_of (Edit.Note node.now text) rows.old.items)
        (λ e. result ≡ Err e) }
    ensures memory { IfNone (refusal_of (Edit.Note node.now text) rows.old.items)
        (IfErr result (λ e. e ≡ Refusal.Memory)) }
{
    let place = known_node(rows.as_slice(), node)?;
    rows[place].audits.push(Audit::Notification { at, text })?;
    Ok(())
}
