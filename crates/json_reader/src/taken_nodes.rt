//! One walk over the nodes of a tree that is given back on the way: of each node all but its
//! children as soon as all is found of it, and each child before the next one is looked at.

ghost use Rattle.std.specs.Prelude.{codes, map};
ghost use Rattle.serde_json.specs.Find.{get};
ghost use Rattle.serde_json.specs.View.{items_of};
ghost use Rattle.json_items.specs.TicketDraft as form;
ghost use Rattle.json_reader.specs.Found.{IsFound};
ghost use Rattle.json_reader.specs.Gathered.{Gathers, rows_under};
ghost use Rattle.json_source.specs.Tree.{tree_data};

use crate::found_nodes::{FoundNodes, PART_MEMBERS, next_depth, push_own};
use json_source::{Tree, member_alone};
use std::alloc::Global;
use ticket_tree::Refusal;

/// Adds a node, of an object with no other members than `names`, and those below it, in preorder.
#[cycle(taken)]
pub fn take_node(
    alloc: Global,
    found: &mut FoundNodes,
    names: &[&str],
    depth: u32,
    tree: Tree<'_>,
) -> Result<(), Refusal>
    ensures { Gathers IsFound found.old found.new result
        (form.node_rows (map (λ n. n.now) names.now) depth (tree_data tree.entry)) }
{
    push_own(alloc, found, names, depth, &tree)?;
    take_below(alloc, found, depth, tree)
}

/// Adds the nodes below a node of this depth.
#[cycle(taken)]
fn take_below(
    alloc: Global,
    found: &mut FoundNodes,
    depth: u32,
    tree: Tree<'_>,
) -> Result<(), Refusal>
    ensures { Gathers IsFound found.old found.new result
        (rows_under (form.next_depth depth) (get (codes "JDF") (tree_data tree.entry))) }
{
    match member_alone(tree, "JDF") {
        None => Ok(()),
        Some(children) => take_list(alloc, found, next_depth(depth), children),
    }
}

/// Adds the nodes of a list, each with those below it.
#[cycle(taken)]
fn take_list(
    alloc: Global,
    found: &mut FoundNodes,
    depth: u32,
    tree: Tree<'_>,
) -> Result<(), Refusal>
    ensures { Gathers IsFound found.old found.new result
        (form.list_rows depth (tree_data tree.entry)) }
{
    match tree {
        Tree::Array(children) => take_children(alloc, found, depth, children),
        _ => Err(Refusal::NotProfile),
    }
}

/// Adds these nodes, each with those below it.
#[cycle(taken)]
fn take_children(
    alloc: Global,
    found: &mut FoundNodes,
    depth: u32,
    children: Vec<Tree<'_>>,
) -> Result<(), Refusal>
    ensures { Gathers IsFound found.old found.new result
        (form.item_rows depth (items_of (map tree_data children.entry.items))) }
{
    for child in children {
        take_node(alloc, found, &PART_MEMBERS[3..], depth, child)?;
    }
    Ok(())
}
