//! The edits of a part that aren't structural: of its rows, and of the copies that may be changed.

ghost use Rattle.std.specs.Prelude.{◌≡◌, false, OnOk, OnErr, IfErr, IfNone, IfSome, IsOk};
ghost use Rattle.ticket_items.specs.Edit.{grows, is_structural};
ghost use Rattle.ticket_rows.specs.Edit.{edited_rows};
ghost use Rattle.ticket_rows.specs.PartEdit.{AreApart, edited_copies, part_refusal};

use crate::edit::setting_edits::{
    note, set_attr, set_resource_attr, set_resource_status, set_status,
};
use crate::pools::holds;
use ticket_items::{Edit, Id, Name, NodeRow, Refusal, Resources, Text};

/// Gives a copy, or a resource of the rows, another Status.
fn set_status_of(
    rows: &mut Vec<NodeRow>,
    copies: &mut Resources,
    resource: &Id,
    status: Name,
) -> Result<(), Refusal>
    requires { AreApart rows.old.items copies.old }
    ensures rows { OnOk result (rows.new.items
        ≡ edited_rows (Edit.SetResStatus resource.now status) 0 rows.old.items) }
    ensures copies { OnOk result (copies.new
        ≡ edited_copies (Edit.SetResStatus resource.now status) copies.old) }
    ensures rows_stay { OnErr result (rows.new.items ≡ rows.old.items) }
    ensures copies_stay { OnErr result (copies.new ≡ copies.old) }
    ensures refused { IfSome
        (part_refusal (Edit.SetResStatus resource.now status) rows.old.items copies.old)
        (λ e. result ≡ Err e) }
    ensures memory { IfNone
        (part_refusal (Edit.SetResStatus resource.now status) rows.old.items copies.old)
        (IsOk result) }
{
    if holds(copies.as_slice(), resource) {
        copies.set_status(resource, status);
        return Ok(());
    }
    set_resource_status(rows, resource, status)
}

/// Gives a copy, or a resource of the rows, an attribute.
fn set_attr_of(
    rows: &mut Vec<NodeRow>,
    copies: &mut Resources,
    resource: &Id,
    name: Name,
    value: Text,
) -> Result<(), Refusal>
    requires { AreApart rows.old.items copies.old }
    ensures rows { OnOk result (rows.new.items
        ≡ edited_rows (Edit.SetResAttr resource.now name value) 0 rows.old.items) }
    ensures copies { OnOk result (copies.new
        ≡ edited_copies (Edit.SetResAttr resource.now name value) copies.old) }
    ensures rows_stay { OnErr result (rows.new.items ≡ rows.old.items) }
    ensures copies_stay { OnErr result (copies.new ≡ copies.old) }
    ensures refused { IfSome
        (part_refusal (Edit.SetResAttr resource.now name value) rows.old.items copies.old)
        (λ e. result ≡ Err e) }
    ensures memory { IfNone
        (part_refusal (Edit.SetResAttr resource.now name value) rows.old.items copies.old)
        (IfErr result (λ e. e ≡ Refusal.Memory)) }
{
    if holds(copies.as_slice(), resource) {
        copies.set_attr(resource, name, value)?;
        return Ok(());
    }
    set_resource_attr(rows, resource, name, value)
}

/// Does an edit that isn't structural. One that puts nothing more into the part takes no memory.
pub fn apply(
    rows: &mut Vec<NodeRow>,
    copies: &mut Resources,
    edit: Edit,
    at: u64,
) -> Result<(), Refusal>
    // Wants: rows and copies of distinct ids, and an edit that adds nothing to the tree.
    requires apart { AreApart rows.old.items copies.old }
    requires plain { is_structural edit ≡ false }
    // Proved: An edit of a part does just what it says to its rows and its copies, or is refused
    // for the first reason.
    // By `rows`, `copies`, `refused`, `memory`, `in_place`, `rows_stay`, `copies_stay`.
    ensures rows { OnOk result (rows.new.items ≡ edited_rows edit at rows.old.items) }
    ensures copies { OnOk result (copies.new ≡ edited_copies edit copies.old) }
    ensures rows_stay { OnErr result (rows.new.items ≡ rows.old.items) }
    ensures copies_stay { OnErr result (copies.new ≡ copies.old) }
    ensures refused { IfSome (part_refusal edit rows.old.items copies.old) (λ e. result ≡ Err e) }
    ensures memory { IfNone (part_refusal edit rows.old.items copies.old)
        (IfErr result (λ e. e ≡ Refusal.Memory)) }
    ensures in_place { grows edit ≡ false
        → IfNone (part_refusal edit rows.old.items copies.old) (IsOk result) }
{
    match edit {
        Edit::SetStatus { node, status } => set_status(rows, &node, status),
        Edit::SetAttr { node, name, value } => set_attr(rows, &node, name, value),
        Edit::SetResStatus { resource, status } => set_status_of(rows, copies, &resource, status),
        Edit::SetResAttr {
            resource,
            name,
            value,
        } => set_attr_of(rows, copies, &resource, name, value),
        Edit::Note { node, text } => note(rows, &node, text, at),
        Edit::AddNode { .. } => unreachable!(),
        Edit::AddResource { .. } => unreachable!(),
        Edit::AddLink { .. } => unreachable!(),
    }
}
