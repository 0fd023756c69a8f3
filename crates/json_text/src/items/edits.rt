//! Printing edits.

ghost use Rattle.std.specs.Prelude.{◌≡◌, ◌&&◌, true, OnOk};
ghost use Rattle.serde_json.specs.Data.{object};
ghost use Rattle.ticket_items.specs.Names.{is_name, is_text};
ghost use Rattle.ticket_items.specs.declared.edit.Edit.TheVariants as edit;
ghost use Rattle.json_items.specs.Edits as edits;
ghost use Rattle.json_text.specs.EditWritten.{attr_edit_members, two_members};
ghost use Rattle.json_text.specs.Printed.{AreInOrder, IsPrinted};

use crate::members::{print_member, print_text};
use crate::printed::PrintForm;
use json::Writer;
use std::alloc::AllocError;
use ticket_items::{Edit, Id, Link, Name, Resource, Text};

/// Prints an edit of a kind by two more members. Their names and texts are valid.
fn print_two<A: PrintForm, B: PrintForm>(
    out: &mut Writer,
    kind: &str,
    one_name: &str,
    one: &A,
    other_name: &str,
    other: &B,
) -> Result<(), AllocError>
    requires { AreInOrder (two_members kind.now
        one_name.now (A.written one.now) other_name.now (B.written other.now)) }
    ensures printed { OnOk result (IsPrinted (object (two_members kind.now
        one_name.now (A.written one.now) other_name.now (B.written other.now))) out.old out.new) }
    ensures names { OnOk result ((A.has_names one.now && B.has_names other.now) ≡ true) }
    ensures texts { OnOk result ((A.has_texts one.now && B.has_texts other.now) ≡ true) }
{
    out.begin_object()?;
    print_text(out, "Edit", kind)?;
    print_member(out, one_name, one)?;
    print_member(out, other_name, other)?;
    out.end_object()
}

/// Prints an edit of a kind that sets an attribute of a target, a node or a resource. Its names and
/// texts are valid.
fn print_set_attr(
    out: &mut Writer,
    kind: &str,
    target_name: &str,
    target: &Id,
    name: &Name,
    value: &Text,
) -> Result<(), AllocError>
    requires { AreInOrder
        (attr_edit_members kind.now target_name.now target.now name.now value.now) }
    ensures printed { OnOk result (IsPrinted (object
        (attr_edit_members kind.now target_name.now target.now name.now value.now))
        out.old out.new) }
    ensures names { OnOk result ((is_name target.now && is_name name.now) ≡ true) }
    ensures texts { OnOk result (is_text value.now ≡ true) }
{
    out.begin_object()?;
    print_text(out, "Edit", kind)?;
    print_member(out, "Name", name)?;
    print_member(out, target_name, target)?;
    print_member(out, "Value", value)?;
    out.end_object()
}

/// Prints an edit that adds a node below another. Its names and texts are valid.
fn print_add_node(
    out: &mut Writer,
    node: &Id,
    id: &Id,
    kind: &Name,
    job_part: &Name,
    status: &Name,
) -> Result<(), AllocError>
    ensures printed { OnOk result (IsPrinted
        (edits.edit_data (edit.AddNode node.now id.now kind.now job_part.now status.now))
        out.old out.new) }
    ensures names { OnOk result (edits.edit_has_names
        (edit.AddNode node.now id.now kind.now job_part.now status.now) ≡ true) }
    ensures texts { OnOk result (edits.edit_has_texts
        (edit.AddNode node.now id.now kind.now job_part.now status.now) ≡ true) }
{
    out.begin_object()?;
    print_text(out, "Edit", "AddNode")?;
    print_member(out, "ID", id)?;
    print_member(out, "JobPartID", job_part)?;
    print_member(out, "Node", node)?;
    print_member(out, "Status", status)?;
    print_member(out, "Type", kind)?;
    out.end_object()
}

/// Prints an edit that adds a resource to the pool of a node. Its names and texts are valid.
#[tactic(auto, unfolding(json_items::specs::Resources::resource_has_names, json_items::specs::Resources::resource_has_texts))]
fn print_add_resource(out: &mut Writer, node: &Id, resource: &Resource) -> Result<(), AllocError>
    ensures printed { OnOk result
        (IsPrinted (edits.edit_data (edit.AddResource node.now resource.now)) out.old out.new) }
    ensures names { OnOk result (edits.edit_has_names
        (edit.AddResource node.now resource.now) ≡ true) }
    ensures texts { OnOk result (edits.edit_has_texts
        (edit.AddResource node.now resource.now) ≡ true) }
{
    out.begin_object()?;
    print_member(out, "Attr", &resource.attrs)?;
    print_member(out, "Class", &resource.class)?;
    print_text(out, "Edit", "AddResource")?;
    print_member(out, "ID", &resource.id)?;
    print_member(out, "Name", &resource.name)?;
    print_member(out, "Node", node)?;
    print_member(out, "Status", &resource.status)?;
    out.end_object()
}

/// Prints an edit that adds a link at a node. Its names and texts are valid.
fn print_add_link(out: &mut Writer, node: &Id, link: &Link) -> Result<(), AllocError>
    ensures printed { OnOk result
        (IsPrinted (edits.edit_data (edit.AddLink node.now link.now)) out.old out.new) }
    ensures names { OnOk result (edits.edit_has_names (edit.AddLink node.now link.now) ≡ true) }
    ensures texts { OnOk result (edits.edit_has_texts (edit.AddLink node.now link.now) ≡ true) }
{
    out.begin_object()?;
    print_text(out, "Edit", "AddLink")?;
    print_member(out, "Node", node)?;
    print_member(out, "Usage", &link.usage)?;
    print_member(out, "rRef", &link.rref)?;
    out.end_object()
}

impl PrintForm for Edit {
    ghost written = { edits.edit_data };

    fn print(&self, out: &mut Writer) -> Result<(), AllocError> {
        match self {
            Edit::SetStatus { node, status } => {
                print_two(out, "SetStatus", "Node", node, "Status", status)
            }
            Edit::SetAttr { node, name, value } => {
                print_set_attr(out, "SetAttr", "Node", node, name, value)
            }
            Edit::SetResStatus { resource, status } => {
                print_two(out, "SetResStatus", "Resource", resource, "Status", status)
            }
            Edit::SetResAttr {
                resource,
                name,
                value,
            } => print_set_attr(out, "SetResAttr", "Resource", resource, name, value),
            Edit::Note { node, text } => print_two(out, "Note", "Node", node, "Text", text),
            Edit::AddNode {
                node,
                id,
                kind,
                job_part,
                status,
            } => print_add_node(out, node, id, kind, job_part, status),
            Edit::AddResource { node, resource } => print_add_resource(out, node, resource),
            Edit::AddLink { node, link } => print_add_link(out, node, link),
        }
    }
}
