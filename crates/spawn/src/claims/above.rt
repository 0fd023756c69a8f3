//! The nodes above a node.

ghost use Rattle.std.specs.Prelude.{◌≡◌, ◌++◌, ◌∷◌, [], ◌-◌, map, take, IfOk, OnOk};
ghost use Rattle.spawn.specs.Parts as parts;

use std::alloc::{AllocError, Global};
use ticket_tree::{Ancestor, At, Duplicate, NodeRow, Rows};

/// Goes on to a row, on the way from the root.
fn go_to<'a>(way: &mut Vec<&'a NodeRow>, row: &'a NodeRow) -> Result<(), AllocError>
    ensures { OnOk result (map (λ s. s.now) way.new.items
        ≡ take (row.now.depth - 1) (map (λ s. s.now) way.old.items) ++ row.now ∷ []) }
{
    way.truncate(row.depth.saturating_sub(1) as usize);
    way.push(row)?;
    Ok(())
}

/// The nodes on the way to the last of these rows, from the root on.
fn way_to<'a>(alloc: Global, rows: &Rows<'a>) -> Result<Vec<&'a NodeRow>, AllocError>
    ensures { IfOk result (λ v. map (λ s. s.now) v.items ≡ parts.way_from [] rows.now) }
{
    let mut way = Vec::new(alloc);
    for place in 0..rows.len() {
        let row = rows.at(place);
        go_to(&mut way, row)?;
    }
    Ok(way)
}

/// The nodes above the one at which a ticket is seen, from the root to the parent.
fn rows_above<'a>(alloc: Global, at: &At<'a>) -> Result<Vec<&'a NodeRow>, AllocError>
    ensures { IfOk result (λ v. map (λ s. s.now) v.items
        ≡ take (at.now.depth - 1) (parts.way_from [] at.now.front)) }
{
    let mut way = way_to(alloc, &at.front)?;
    way.truncate(at.levels() as usize);
    Ok(way)
}

/// The rows as ancestors.
fn as_ancestors(alloc: Global, rows: &[&NodeRow]) -> Result<Vec<Ancestor>, AllocError>
    ensures { IfOk result (λ v. v.items ≡ map (λ s. parts.as_ancestor s.now) rows.now) }
{
    let mut ancestors = Vec::with_capacity(alloc, rows.len())?;
    for row in rows {
        ancestors.push(Ancestor {
            node_id: row.id.copy(alloc)?,
            job_part: row.job_part.copy(alloc)?,
        })?;
    }
    Ok(ancestors)
}

/// The ancestors of the node at which a ticket is seen.
pub fn ancestors_of(alloc: Global, at: &At<'_>) -> Result<Vec<Ancestor>, AllocError>
    ensures { IfOk result (λ v. v.items
        ≡ map parts.as_ancestor (take (at.now.depth - 1) (parts.way_from [] at.now.front))) }
{
    let above = rows_above(alloc, at)?;
    as_ancestors(alloc, above.as_slice())
}
