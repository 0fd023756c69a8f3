//! Edits, by the kind that their `Edit` names.

ghost use Rattle.json_items.specs.Edits as edits;
ghost use Rattle.json_items.specs.Validation.{Reads};

use crate::members::found_members::find_five;
use crate::{Form, Validation, check_members, find_three, find_two, find_under, text_under, zip};
use json_source::Source;
use std::alloc::Global;
use ticket_items::{Edit, Link, Refusal, Resource, Usage};

/// A `SetStatus`.
#[tactic(auto, unfolding(crate::specs::Edits::set_status_form))]
fn set_status<S: Source>(alloc: Global, value: &S) -> Result<Validation<Edit>, Refusal>
    ensures { Reads edits.edit_has_names edits.edit_has_texts result
        (edits.set_status_form (S.content value.now)) }
{
    check_members(value, &["Edit", "Node", "Status"])?;
    let found = find_two(alloc, value, "Node", "Status")?;
    Ok(found.map(|(node, status)| Edit::SetStatus { node, status }))
}

/// A `SetAttr`.
#[tactic(auto, unfolding(crate::specs::Edits::set_attr_form), using(crate::proofs::Tests::and_true))]
fn set_attr<S: Source>(alloc: Global, value: &S) -> Result<Validation<Edit>, Refusal>
    ensures { Reads edits.edit_has_names edits.edit_has_texts result
        (edits.set_attr_form (S.content value.now)) }
{
    check_members(value, &["Edit", "Name", "Node", "Value"])?;
    let found = find_three(alloc, value, "Node", "Name", "Value")?;
    Ok(found.map(|((node, name), value)| Edit::SetAttr { node, name, value }))
}

/// A `SetResStatus`.
#[tactic(auto, unfolding(crate::specs::Edits::set_resource_status_form))]
fn set_resource_status<S: Source>(alloc: Global, value: &S) -> Result<Validation<Edit>, Refusal>
    ensures { Reads edits.edit_has_names edits.edit_has_texts result
        (edits.set_resource_status_form (S.content value.now)) }
{
    check_members(value, &["Edit", "Resource", "Status"])?;
    let found = find_two(alloc, value, "Resource", "Status")?;
    Ok(found.map(|(resource, status)| Edit::SetResStatus { resource, status }))
}

/// A `SetResAttr`.
#[tactic(auto, unfolding(crate::specs::Edits::set_resource_attr_form), using(crate::proofs::Tests::and_true))]
fn set_resource_attr<S: Source>(alloc: Global, value: &S) -> Result<Validation<Edit>, Refusal>
    ensures { Reads edits.edit_has_names edits.edit_has_texts result
        (edits.set_resource_attr_form (S.content value.now)) }
{
    check_members(value, &["Edit", "Name", "Resource", "Value"])?;
    let found = find_three(alloc, value, "Resource", "Name", "Value")?;
    Ok(found.map(|((resource, name), value)| Edit::SetResAttr {
        resource,
        name,
        value,
    }))
}

/// A `Note`.
#[tactic(auto, unfolding(crate::specs::Edits::note_form), using(crate::proofs::Tests::and_true))]
fn note<S: Source>(alloc: Global, value: &S) -> Result<Validation<Edit>, Refusal>
    ensures { Reads edits.edit_has_names edits.edit_has_texts result
        (edits.note_form (S.content value.now)) }
{
    check_members(value, &["Edit", "Node", "Text"])?;
    let found = find_two(alloc, value, "Node", "Text")?;
    Ok(found.map(|(node, text)| Edit::Note { node, text }))
}

/// An `AddNode`.
#[tactic(auto, unfolding(crate::specs::Edits::add_node_form))]
fn add_node<S: Source>(alloc: Global, value: &S) -> Result<Validation<Edit>, Refusal>
    ensures { Reads edits.edit_has_names edits.edit_has_texts result
        (edits.add_node_form (S.content value.now)) }
{
    check_members(
        value,
        &["Edit", "ID", "JobPartID", "Node", "Status", "Type"],
    )?;
    let found = find_five(alloc, value, "ID", "JobPartID", "Node", "Status", "Type")?;
    Ok(found.map(|((((id, job_part), node), status), kind)| Edit::AddNode {
        node,
        id,
        kind,
        job_part,
        status,
    }))
}

/// An `AddResource`. The new resource shows nothing of spawns.
#[tactic(auto, unfolding(crate::specs::Edits::add_resource_form))]
fn add_resource<S: Source>(alloc: Global, value: &S) -> Result<Validation<Edit>, Refusal>
    ensures { Reads edits.edit_has_names edits.edit_has_texts result
        (edits.add_resource_form (S.content value.now)) }
{
    check_members(
        value,
        &["Attr", "Class", "Edit", "ID", "Name", "Node", "Status"],
    )?;
    let node = find_under(alloc, value, "Node")?;
    let resource = Resource::find(alloc, value)?;
    let found = zip(node, resource);
    Ok(found.map(|(node, resource)| Edit::AddResource { node, resource }))
}

/// An `AddLink`.
#[tactic(auto, unfolding(crate::specs::Edits::add_link_form))]
fn add_link<S: Source>(alloc: Global, value: &S) -> Result<Validation<Edit>, Refusal>
    ensures { Reads edits.edit_has_names edits.edit_has_texts result
        (edits.add_link_form (S.content value.now)) }
{
    check_members(value, &["Edit", "Node", "Usage", "rRef"])?;
    let usage = find_under::<Usage, _>(alloc, value, "Usage")??;
    let found = find_two(alloc, value, "Node", "rRef")?;
    Ok(found.map(|(node, rref)| Edit::AddLink {
        node,
        link: Link { rref, usage },
    }))
}

impl Form for Edit {
    ghost form = { edits.edit_form };

    ghost has_names = { edits.edit_has_names };

    ghost has_texts = { edits.edit_has_texts };

    #[tactic(auto, unfolding(crate::specs::Edits::edit_form, crate::specs::Edits::adding_form, crate::specs::Edits::setting_form))]
    fn find<S: Source>(alloc: Global, value: &S) -> Result<Validation<Edit>, Refusal> {
        match text_under(value, "Edit").ok_or(Refusal::NotProfile)? {
            "Note" => note(alloc, value),
            "AddNode" => add_node(alloc, value),
            "AddResource" => add_resource(alloc, value),
            "AddLink" => add_link(alloc, value),
            "SetStatus" => set_status(alloc, value),
            "SetAttr" => set_attr(alloc, value),
            "SetResStatus" => set_resource_status(alloc, value),
            "SetResAttr" => set_resource_attr(alloc, value),
            _ => Err(Refusal::NotProfile),
        }
    }
}
