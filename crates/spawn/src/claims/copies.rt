//! What a new spawn takes along of the resources that are linked outside its node.

ghost use Rattle.std.specs.Prelude.{◌≡◌, ◌++◌, ◌&&◌, not, ℕ, Bool, List, IfOk, OnOk};
ghost use Rattle.std.specs.List.{filter};
ghost use Rattle.ticket_items.specs.Ids.{mem};
ghost use Rattle.ticket_tree.specs.Part.{is_linked};
ghost use Rattle.ticket_items.specs.Resource.{resource_ids};
ghost use Rattle.spawn.specs.IdSet.{IsSetOf};
ghost use Rattle.spawn.specs.Parts.{resources};

use crate::claims::id_set::{IdSet, has, linked_by, set_of};
use std::alloc::{AllocError, Global};
use ticket_tree::{At, Duplicate, Id, Resource, Rows};

/// The resources of which the copies may be changed, and copies of the others, each in ticket
/// order.
#[derive(Drop)]
pub struct Copies {
    pub rw: Vec<Id>,
    pub ro: Vec<Resource>,
}

/// Adds the resources of a pool that are linked.
fn push_pool(
    alloc: Global,
    copies: &mut Copies,
    pool: &[Resource],
    linked: &IdSet<'_>,
    chosen: &IdSet<'_>,
) -> Result<(), AllocError>
    ensures rw { OnOk result ((f g : List ℕ → Bool) → IsSetOf f linked.now → IsSetOf g chosen.now
        → copies.new.rw.items
        ≡ copies.old.rw.items ++ resource_ids (filter (λ x. f x.id && g x.id) pool.now)) }
    ensures ro { OnOk result ((f g : List ℕ → Bool) → IsSetOf f linked.now → IsSetOf g chosen.now
        → copies.new.ro.items
        ≡ copies.old.ro.items ++ filter (λ x. f x.id && not (g x.id)) pool.now) }
{
    for resource in pool {
        if has(linked, &resource.id) {
            if has(chosen, &resource.id) {
                copies.rw.push(resource.id.copy(alloc)?)?;
            } else {
                copies.ro.push(resource.copy(alloc)?)?;
            }
        }
    }
    Ok(())
}

/// Adds the resources of the pools of rows that are linked.
fn push_rows(
    alloc: Global,
    copies: &mut Copies,
    rows: &Rows<'_>,
    linked: &IdSet<'_>,
    chosen: &IdSet<'_>,
) -> Result<(), AllocError>
    ensures rw { OnOk result ((f g : List ℕ → Bool) → IsSetOf f linked.now → IsSetOf g chosen.now
        → copies.new.rw.items
        ≡ copies.old.rw.items
        ++ resource_ids (filter (λ x. f x.id && g x.id) (resources rows.now))) }
    ensures ro { OnOk result ((f g : List ℕ → Bool) → IsSetOf f linked.now → IsSetOf g chosen.now
        → copies.new.ro.items
        ≡ copies.old.ro.items ++ filter (λ x. f x.id && not (g x.id)) (resources rows.now)) }
{
    for place in 0..rows.len() {
        let row = rows.at(place);
        push_pool(alloc, copies, row.resources.as_slice(), linked, chosen)?;
    }
    Ok(())
}

/// What a spawn of the node at which a ticket is seen takes along, where the copies of these may be
/// changed.
pub fn copies_at(alloc: Global, at: &At<'_>, rw: &[Id]) -> Result<Copies, AllocError>
    ensures rw { IfOk result (λ c. c.rw.items
        ≡ resource_ids
        (filter (λ x. is_linked at.now.below x.id && mem x.id rw.now)
        (resources at.now.front))
        ++ resource_ids
        (filter (λ x. is_linked at.now.below x.id && mem x.id rw.now)
        (resources at.now.behind))) }
    ensures ro { IfOk result (λ c. c.ro.items
        ≡ filter (λ x. is_linked at.now.below x.id && not (mem x.id rw.now))
        (resources at.now.front)
        ++ filter (λ x. is_linked at.now.below x.id && not (mem x.id rw.now))
        (resources at.now.behind)) }
{
    let linked = linked_by(alloc, &at.below)?;
    let chosen = set_of(alloc, rw)?;
    let mut copies = Copies {
        rw: Vec::new(alloc),
        ro: Vec::new(alloc),
    };
    push_rows(alloc, &mut copies, &at.front, &linked, &chosen)?;
    push_rows(alloc, &mut copies, &at.behind, &linked, &chosen)?;
    Ok(copies)
}
