//! What is found of the input of `edit`, before the rows of its ticket are looked at together.

ghost use Rattle.std.specs.Prelude.{map};
ghost use Rattle.std.specs.List.{list_all};
ghost use Rattle.serde_json.specs.View.{items_of};
ghost use Rattle.json_items.specs.Edits.{edit_form, edit_has_names, edit_has_texts};
ghost use Rattle.json_items.specs.Validation.{Reads, both_read, on_both};
ghost use Rattle.json_items.specs.Listed.{items_read, list_form};
ghost use Rattle.json_items.specs.TicketForm.{has_names, has_texts};
ghost use Rattle.json_source.specs.Tree.{tree_data};
ghost use Rattle.controller_form.specs.Openings.ShopForm.{ticket_under};
ghost use Rattle.document_commands.specs.EditCommand.Document as document;

use json_items::{Form, Validation, check_members, find_under, push_found, zip};
use json_profile::RawTicket;
use json_source::{Tree, members_alone};
use std::alloc::Global;
use ticket_tree::{Edit, Items, Refusal};

/// The input of `edit` by its members and their kinds alone, of which the ids, names and texts are
/// valid.
#[derive(Drop)]
pub struct RawDocument {
    /// When the edits are done, in seconds since 1970.
    pub at: u64,
    pub edits: Items<Edit>,
    pub ticket: RawTicket,
}

/// What is found of edits, each of which is given back as soon as all is found of it. Refuses what
/// the first refused edit is refused for, and `Memory`.
fn find_edits(alloc: Global, edits: Vec<Tree<'_>>) -> Result<Validation<Items<Edit>>, Refusal>
    ensures { Reads (list_all edit_has_names) (list_all edit_has_texts) result
        (items_read edit_form (items_of (map tree_data edits.entry.items))) }
{
    let mut found = Ok(Items::new(Vec::with_capacity(alloc, edits.len())?));
    for edit in edits {
        let next = Edit::find(alloc, &edit)?;
        push_found(&mut found, next)?;
    }
    Ok(found)
}

/// What is found of the list of edits that a tree is. Refuses `NotProfile`, and `Memory`.
fn edits_in(alloc: Global, tree: Tree<'_>) -> Result<Validation<Items<Edit>>, Refusal>
    ensures { Reads (list_all edit_has_names) (list_all edit_has_texts) result
        (list_form edit_form (tree_data tree.entry)) }
{
    match tree {
        Tree::Array(edits) => find_edits(alloc, edits),
        _ => Err(Refusal::NotProfile),
    }
}

/// What is found of the edits and the ticket of a document, all else of which is given back before,
/// the edits before the ticket is looked at, and the ticket node by node. Refuses `NotProfile`, and
/// `Memory`.
fn parts_in(alloc: Global, tree: Tree<'_>) -> Result<Validation<(Items<Edit>, RawTicket)>, Refusal>
    ensures { Reads (on_both (list_all edit_has_names) has_names)
        (on_both (list_all edit_has_texts) has_texts) result
        (both_read (document.edits_under (tree_data tree.entry))
        (ticket_under (tree_data tree.entry))) }
{
    let (edits, ticket) = members_alone(tree, "Edits", "Ticket");
    let edits = edits_in(alloc, edits.ok_or(Refusal::NotProfile)?)?;
    let ticket = ticket.ok_or(Refusal::NotProfile)?;
    let ticket = RawTicket::of(alloc, ticket)?;
    Ok(zip(edits, ticket))
}

impl RawDocument {
    ghost use Rattle.json_items.specs.Validation.{Reads};
    ghost use Rattle.json_source.specs.Tree.{tree_data};
    ghost use Rattle.document_commands.specs.EditCommand.Document as document;

    /// What is found of the document that a tree is. Refuses `NotProfile`, and `Memory`.
    #[tactic(auto, unfolding(crate::specs::EditCommand::Document::document_form))]
    pub fn of(alloc: Global, tree: Tree<'_>) -> Result<Validation<RawDocument>, Refusal>
        ensures { Reads document.document_has_names document.document_has_texts result
            (document.document_form (tree_data tree.entry)) }
    {
        check_members(&tree, &["At", "Edits", "Ticket"])?;
        let at = find_under::<u64, _>(alloc, &tree, "At")??;
        let found = parts_in(alloc, tree)?;
        Ok(found.map(|(edits, ticket)| RawDocument { at, edits, ticket }))
    }
}
