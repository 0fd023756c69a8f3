//! One walk over the nodes of a ticket or a part. What the resources of a node show is given back
//! before the next node is read.

ghost use Rattle.std.specs.Prelude.{◌≡◌, ◌∷◌, [], codes, map};
ghost use Rattle.std.specs.Option.{option_map};
ghost use Rattle.serde_json.specs.Find.{get};
ghost use Rattle.json_items.specs.TicketDraft as form;
ghost use Rattle.json_reader.specs.Found.{IsFound};
ghost use Rattle.json_reader.specs.Gathered.{Gathers, rows_under};

use crate::found_pool::show_nothing;
use crate::found_row::own_row;
use json_items::{Validation, push_found};
use json_source::Source;
use std::alloc::Global;
use ticket_tree::{Items, NodeRow, Refusal};

/// The members of a part's root. A ticket's root may have all but the first two of them, and other
/// nodes all but the first three.
pub const PART_MEMBERS: &[&str] = &[
    "AncestorPool",
    "SpawnID",
    "JobID",
    "Attr",
    "AuditPool",
    "ID",
    "JDF",
    "JobPartID",
    "ResourceLinkPool",
    "ResourcePool",
    "Status",
    "Type",
];

/// How far depths are counted: one more than a ticket may have.
const DEEPEST_READ: u32 = 33;

/// What is found of nodes: their rows in preorder, or the first of `BadId` and `BadText` that
/// stands in them, and whether their resources show nothing of spawns.
#[derive(Drop)]
pub struct FoundNodes {
    pub rows: Validation<Items<NodeRow>>,
    pub bare: bool,
}

impl FoundNodes {
    ghost use Rattle.std.specs.Prelude.{◌≡◌, List, [], ◌∷◌, ◌++◌, Some, IfErr, OnOk};
    ghost use Rattle.json_items.specs.Validation.{Finds, first_fault};
    ghost use Rattle.json_items.specs.TicketDraft.{RawRow, are_bare};
    ghost use Rattle.json_items.specs.TicketForm.{row_has_names, row_has_texts};
    ghost use Rattle.json_reader.specs.Found.{IsFound};

    /// What is found of no nodes.
    pub fn new(alloc: Global) -> FoundNodes
        ensures { IsFound [] result }
    {
        FoundNodes {
            rows: Ok(Items::new(Vec::new(alloc))),
            bare: true,
        }
    }

    /// Adds what is found of a node, and whether its resources show nothing. Refuses `Memory`
    /// alone.
    pub fn push(&mut self, row: Validation<NodeRow>, bare: bool) -> Result<(), Refusal>
        ensures ok { OnOk result ((before : List RawRow) (raw : RawRow) → IsFound before self.old
            → Finds (first_fault row_has_names row_has_texts) row (Some raw.row)
            → bare ≡ are_bare raw.pool → IsFound (before ++ raw ∷ []) self.new) }
        ensures memory { IfErr result (λ e. e ≡ Refusal.Memory) }
    {
        push_found(&mut self.rows, row)?;
        self.bare &= bare;
        Ok(())
    }
}

/// The depth of a child.
pub fn next_depth(depth: u32) -> u32
    ensures { result ≡ form.next_depth depth }
{
    depth.saturating_add(1).min(DEEPEST_READ)
}

/// Adds a node without its children, of an object with no other members than `names`.
pub fn push_own<S: Source>(
    alloc: Global,
    found: &mut FoundNodes,
    names: &[&str],
    depth: u32,
    value: &S,
) -> Result<(), Refusal>
    ensures { Gathers IsFound found.old found.new result (option_map (λ r. r ∷ [])
        (form.own_row (map (λ n. n.now) names.now) depth (S.content value.now))) }
{
    let (row, shown) = own_row(alloc, names, depth, value)?;
    found.push(row, show_nothing(shown.as_slice()))
}

/// Adds a node, of an object with no other members than `names`, and those below it, in preorder.
#[cycle(found)]
pub fn find_node<S: Source>(
    alloc: Global,
    found: &mut FoundNodes,
    names: &[&str],
    depth: u32,
    value: &S,
) -> Result<(), Refusal>
    ensures { Gathers IsFound found.old found.new result
        (form.node_rows (map (λ n. n.now) names.now) depth (S.content value.now)) }
{
    push_own(alloc, found, names, depth, value)?;
    find_below(alloc, found, depth, value)
}

/// Adds the nodes below a node of this depth.
#[cycle(found)]
pub fn find_below<S: Source>(
    alloc: Global,
    found: &mut FoundNodes,
    depth: u32,
    value: &S,
) -> Result<(), Refusal>
    ensures { Gathers IsFound found.old found.new result
        (rows_under (form.next_depth depth) (get (codes "JDF") (S.content value.now))) }
{
    match value.member("JDF") {
        None => Ok(()),
        Some(children) => find_children(alloc, found, next_depth(depth), children),
    }
}

/// Adds the nodes of a list, each with those below it.
#[cycle(found)]
fn find_children<S: Source>(
    alloc: Global,
    found: &mut FoundNodes,
    depth: u32,
    value: &S,
) -> Result<(), Refusal>
    ensures { Gathers IsFound found.old found.new result
        (form.list_rows depth (S.content value.now)) }
{
    let children = value.items().ok_or(Refusal::NotProfile)?;
    for child in children {
        find_node(alloc, found, &PART_MEMBERS[3..], depth, child)?;
    }
    Ok(())
}
