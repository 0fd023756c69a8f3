//! The edits of a ticket's rows.

ghost use Rattle.std.specs.Prelude.{◌≡◌, None, Some, false, OnOk, OnErr, IfErr, IfNone, IfSome};
ghost use Rattle.std.specs.Prelude.{IsOk, MatchResult};
ghost use Rattle.ticket_rows.specs.Boxed.{contents};
ghost use Rattle.ticket_rows.specs.ChangedRow as changed;
ghost use Rattle.ticket_items.specs.Edit.{grows};
ghost use Rattle.ticket_rows.specs.Edit.{edited_rows, refusal_of};
ghost use Rattle.ticket_rows.specs.Index.{IsIndex};
ghost use Rattle.ticket_rows.specs.Ticket.{IsValid};

use crate::edit::at_place::{append, set_attr, set_resource_attr, set_resource_status, set_status};
use crate::edit::growing_edits::{add_link, add_node, add_resource};
use crate::edit::known_rows::{
    known_home, known_node, open_to_child, open_to_link, open_to_resource, open_to_status,
};
use crate::index::Index;
use crate::indexed_rows::IndexedRows;
use std::alloc::{AllocError, Global};
use ticket_items::{Audit, Edit, NodeRow, Refusal};

/// Where the row stands that an edit changes, or why the edit is refused.
fn changed_place(rows: &IndexedRows, edit: &Edit) -> Result<usize, Refusal>
    requires { IsValid rows.now }
    ensures place { MatchResult result
        (λ place. changed.changed_place edit.now rows.now ≡ Some place) (λ _. Unit {0}) }
    ensures refusal { MatchResult result (λ _. refusal_of edit.now rows.now ≡ None)
        (λ e. refusal_of edit.now rows.now ≡ Some e) }
{
    match edit {
        Edit::SetStatus { node, status } => open_to_status(rows, node, status),
        Edit::SetAttr { node, .. } => known_node(rows, node),
        Edit::SetResStatus { resource, .. } => known_home(rows, resource),
        Edit::SetResAttr { resource, .. } => known_home(rows, resource),
        Edit::Note { node, .. } => known_node(rows, node),
        Edit::AddNode {
            node,
            id,
            status,
            ..
        } => open_to_child(rows, node, id, status),
        Edit::AddResource { node, resource } => open_to_resource(rows, node, resource),
        Edit::AddLink { node, link } => open_to_link(rows, node, link),
    }
}

/// Why an edit is refused, if it is.
pub fn check(rows: &IndexedRows, edit: &Edit) -> Result<(), Refusal>
    // Wants: valid rows.
    requires { IsValid rows.now }
    ensures { MatchResult result (λ _. refusal_of edit.now rows.now ≡ None)
        (λ e. refusal_of edit.now rows.now ≡ Some e) }
{
    changed_place(rows, edit)?;
    Ok(())
}

/// Does an edit that isn't refused, whose place is known, and keeps the index of the rows.
pub(crate) fn change(
    alloc: Global,
    rows: &mut Vec<Box<NodeRow>>,
    index: &mut Index,
    place: usize,
    edit: Edit,
    at: u64,
) -> Result<(), AllocError>
    requires valid { IsValid (contents rows.old.items) }
    requires index { IsIndex (contents rows.old.items) index.old }
    requires open { refusal_of edit (contents rows.old.items) ≡ None }
    requires place { changed.changed_place edit (contents rows.old.items) ≡ Some place }
    ensures ok { OnOk result (contents rows.new.items
        ≡ edited_rows edit at (contents rows.old.items)) }
    ensures err { OnErr result (contents rows.new.items ≡ contents rows.old.items) }
    ensures index { IsIndex (contents rows.new.items) index.new }
    ensures in_place { grows edit ≡ false → IsOk result }
{
    match edit {
        Edit::SetStatus { status, .. } => {
            set_status(rows, place, status);
            Ok(())
        }
        Edit::SetAttr { name, value, .. } => set_attr(rows, place, name, value),
        Edit::SetResStatus { resource, status } => {
            set_resource_status(rows, place, &resource, status);
            Ok(())
        }
        Edit::SetResAttr {
            resource,
            name,
            value,
        } => set_resource_attr(rows, place, &resource, name, value),
        Edit::Note { text, .. } => append(rows, place, Audit::Notification { at, text }),
        Edit::AddNode {
            id,
            kind,
            job_part,
            status,
            ..
        } => add_node(alloc, rows, index, place, id, kind, job_part, status),
        Edit::AddResource { resource, .. } => add_resource(rows, index, place, resource),
        Edit::AddLink { link, .. } => add_link(rows, place, link),
    }
}

/// Does an edit. One that puts nothing more into the rows takes no memory.
pub fn apply(alloc: Global, rows: &mut IndexedRows, edit: Edit, at: u64) -> Result<(), Refusal>
    // Wants: valid rows.
    requires { IsValid rows.old }
    // Proved: An edit does just what it says, or is refused for the first reason, and valid rows
    // stay valid.
    // By `ok`, `refused`, `memory`, `in_place`, `valid`; `check`.
    ensures ok { OnOk result (rows.new ≡ edited_rows edit at rows.old) }
    ensures err { OnErr result (rows.new ≡ rows.old) }
    ensures refused { IfSome (refusal_of edit rows.old) (λ e. result ≡ Err e) }
    ensures memory { IfNone (refusal_of edit rows.old) (IfErr result (λ e. e ≡ Refusal.Memory)) }
    ensures in_place { grows edit ≡ false → IfNone (refusal_of edit rows.old) (IsOk result) }
    ensures valid { IsValid rows.new }
{
    let place = changed_place(rows, &edit)?;
    rows.change(alloc, place, edit, at)?;
    Ok(())
}
