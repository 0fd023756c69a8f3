//! Whether each link names a resource that is at home at its node or above it.

ghost use Rattle.std.specs.Prelude.{◌≡◌, ◌++◌, ◌-◌, ◌∷◌, [], ℕ, List, map, take, false, IfOk, OnOk};
ghost use Rattle.std.specs.List.{list_all, list_any};
ghost use Rattle.std.specs.Option.{option_map_or};
ghost use Rattle.std.specs.Str.{bytes_eq};
ghost use Rattle.ticket_rows.specs.Homes.{home_of};
ghost use Rattle.ticket_rows.specs.HomeTable.{home_in, or_here, or_known};
ghost use Rattle.ticket_items.specs.Ids.{mem};
ghost use Rattle.ticket_items.specs.Resource.{resource_ids};
ghost use Rattle.ticket_rows.specs.Copies.{with_copies};
ghost use Rattle.ticket_rows.specs.Ticket as valid;

use std::alloc::{AllocError, Global};
use std::collections::BTreeMap;
use ticket_items::{Link, NodeRow, Resource};

/// The homes of resources: ids of nodes under ids of resources.
type HomeTable<'a> = BTreeMap<&'a str, &'a str>;

/// Puts a home under an id, unless there is one.
fn add_home<'a>(homes: &mut HomeTable<'a>, id: &'a str, home: &'a str) -> Result<(), AllocError>
    ensures { OnOk result ((x : List ℕ)
        → home_in homes.new x ≡ or_here (bytes_eq id.now x) home.now (home_in homes.old x)) }
{
    if homes.contains_key(id) {
        return Ok(());
    }
    homes.insert(id, home)?;
    Ok(())
}

/// Adds the resources of a pool as those of a node, but for those whose id is there.
fn add_pool<'a>(
    homes: &mut HomeTable<'a>,
    home: &'a str,
    pool: &'a [Resource],
) -> Result<(), AllocError>
    ensures { OnOk result ((x : List ℕ)
        → home_in homes.new x
        ≡ or_here (mem x (resource_ids pool.now)) home.now (home_in homes.old x)) }
{
    for resource in pool {
        add_home(homes, resource.id.as_str(), home)?;
    }
    Ok(())
}

/// Adds the resources of the pools of rows, but for those whose id is there.
fn add_rows<'a>(homes: &mut HomeTable<'a>, rows: &'a [NodeRow]) -> Result<(), AllocError>
    ensures { OnOk result ((x : List ℕ)
        → home_in homes.new x ≡ or_known (home_in homes.old x) (home_of rows.now x)) }
{
    for row in rows {
        add_pool(homes, row.id.as_str(), row.resources.as_slice())?;
    }
    Ok(())
}

/// The homes of all resources, with copies as resources of the root.
fn home_table<'a>(
    alloc: Global,
    rows: &'a [NodeRow],
    rw: &'a [Resource],
    ro: &'a [Resource],
) -> Result<HomeTable<'a>, AllocError>
    ensures { IfOk result (λ homes. (x : List ℕ)
        → home_in homes x ≡ home_of (with_copies rows.now rw.now ro.now) x) }
{
    let mut homes = BTreeMap::new(alloc);
    let Some((root, later)) = rows.split_first() else {
        return Ok(homes);
    };
    let home = root.id.as_str();
    add_pool(&mut homes, home, root.resources.as_slice())?;
    add_pool(&mut homes, home, rw)?;
    add_pool(&mut homes, home, ro)?;
    add_rows(&mut homes, later)?;
    Ok(homes)
}

/// Whether a node is on a path.
fn is_on(path: &[&str], node: &str) -> bool
    ensures { result ≡ list_any (λ other. bytes_eq other.now node.now) path.now }
{
    path.iter().any(|other| *other == node)
}

/// Whether the link names a resource whose home is on the path.
fn link_resolves<'a>(homes: &HomeTable<'a>, path: &[&'a str], link: &Link) -> bool
    ensures { result ≡ option_map_or (λ home. mem home (map (λ s. s.now) path.now))
        (home_in homes.now link.now.rref) false }
{
    match homes.get(link.rref.as_str()) {
        None => false,
        Some(home) => is_on(path, home),
    }
}

/// Whether each of the links does.
fn links_resolve<'a>(homes: &HomeTable<'a>, path: &[&'a str], links: &[Link]) -> bool
    ensures { result ≡ list_all
        (λ l. option_map_or (λ home. mem home (map (λ s. s.now) path.now))
        (home_in homes.now l.rref) false) links.now }
{
    for link in links {
        if !link_resolves(homes, path, link) {
            return false;
        }
    }
    true
}

/// Goes on to a row, on a path from the root on.
fn go_to<'a>(path: &mut Vec<&'a str>, row: &'a NodeRow) -> Result<(), AllocError>
    ensures { OnOk result (map (λ s. s.now) path.new.items
        ≡ take (row.now.depth - 1) (map (λ s. s.now) path.old.items) ++ row.now.id ∷ []) }
{
    path.truncate(row.depth.saturating_sub(1) as usize);
    path.push(row.id.as_str())?;
    Ok(())
}

/// Whether each link names a resource that is at home at its node or above it, with copies as
/// resources of the root.
pub fn are_resolved_with(
    alloc: Global,
    rows: &[NodeRow],
    rw: &[Resource],
    ro: &[Resource],
) -> Result<bool, AllocError>
    ensures { IfOk result (λ resolved. resolved
        ≡ valid.are_resolved (with_copies rows.now rw.now ro.now)) }
{
    let homes = home_table(alloc, rows, rw, ro)?;
    let mut path = Vec::new(alloc);
    for row in rows {
        go_to(&mut path, row)?;
        if !links_resolve(&homes, path.as_slice(), row.links.as_slice()) {
            return Ok(false);
        }
    }
    Ok(true)
}
