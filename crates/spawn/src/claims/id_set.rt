//! Sets of ids, borrowed from a ticket or an order.

ghost use Rattle.std.specs.Prelude.{◌≡◌, ◌||◌, ℕ, Bool, List, IfOk, OnOk};
ghost use Rattle.std.specs.List.{list_any};
ghost use Rattle.std.specs.Str.{bytes_eq};
ghost use Rattle.ticket_items.specs.Ids.{mem};
ghost use Rattle.ticket_tree.specs.Part.{is_linked};
ghost use Rattle.spawn.specs.IdSet.{IsSetOf, is_in};

use std::alloc::{AllocError, Global};
use std::collections::BTreeSet;
use ticket_tree::{Id, NodeRow, Rows};

/// A set of ids.
pub type IdSet<'a> = BTreeSet<&'a str>;

/// Whether an id is in the set.
pub fn has(set: &IdSet<'_>, id: &Id) -> bool
    ensures { result ≡ is_in set.now id.now }
{
    set.contains(id.as_str())
}

/// Adds an id.
pub fn add<'a>(set: &mut IdSet<'a>, id: &'a Id) -> Result<(), AllocError>
    ensures { OnOk result ((f : List ℕ → Bool) → IsSetOf f set.old
        → IsSetOf (λ x. f x || bytes_eq id.now x) set.new) }
{
    set.insert(id.as_str())?;
    Ok(())
}

/// Adds ids.
pub fn add_all<'a>(set: &mut IdSet<'a>, ids: &'a [Id]) -> Result<(), AllocError>
    ensures { OnOk result ((f : List ℕ → Bool) → IsSetOf f set.old
        → IsSetOf (λ x. f x || mem x ids.now) set.new) }
{
    for id in ids {
        add(set, id)?;
    }
    Ok(())
}

/// The set of these ids.
pub fn set_of<'a>(alloc: Global, ids: &'a [Id]) -> Result<IdSet<'a>, AllocError>
    ensures { IfOk result (λ set. IsSetOf (λ x. mem x ids.now) set) }
{
    let mut set = BTreeSet::new(alloc);
    add_all(&mut set, ids)?;
    Ok(set)
}

fn add_links<'a>(set: &mut IdSet<'a>, row: &'a NodeRow) -> Result<(), AllocError>
    ensures { OnOk result ((f : List ℕ → Bool) → IsSetOf f set.old
        → IsSetOf (λ x. f x || list_any (λ l. bytes_eq l.rref x) row.now.links) set.new) }
{
    for link in row.links.as_slice() {
        add(set, &link.rref)?;
    }
    Ok(())
}

/// The set of the resources that some of the rows link.
pub fn linked_by<'a>(alloc: Global, rows: &Rows<'a>) -> Result<IdSet<'a>, AllocError>
    ensures { IfOk result (λ set. IsSetOf (is_linked rows.now) set) }
{
    let mut set = BTreeSet::new(alloc);
    for place in 0..rows.len() {
        let row = rows.at(place);
        add_links(&mut set, row)?;
    }
    Ok(set)
}
