//! What is found of the resources of a pool, which may show spawns that copied them.

ghost use Rattle.std.specs.Prelude.{◌≡◌, map, option_and_then};
ghost use Rattle.std.specs.List.{list_all};
ghost use Rattle.serde_json.specs.Find.{get};
ghost use Rattle.serde_json.specs.View.{items_of};
ghost use Rattle.json_items.specs.Listed.{items_read, list_form, pool_form};
ghost use Rattle.json_items.specs.Resources.{resource_form};
ghost use Rattle.json_items.specs.Shown as marks;
ghost use Rattle.json_reader.specs.Found.{FindsAs, IsMarked, IsPool};

use json_items::{Form, Showing, Validation, check_members, push_found};
use json_source::Source;
use std::alloc::Global;
use ticket_tree::{Items, Refusal, Resource};

/// The members of a resource.
const RESOURCE_MEMBERS: &[&str] = &[
    "Attr",
    "Class",
    "ID",
    "Locked",
    "Name",
    "SpawnIDs",
    "SpawnStatus",
    "Status",
];

/// What is found of a pool: its resources, or the first of `BadId` and `BadText` that stands in
/// them, and what each of them shows of spawns, which is known also where they aren't valid.
#[derive(Drop)]
pub struct FoundPool {
    pub resources: Validation<Items<Resource>>,
    pub shown: Items<Showing>,
}

/// Whether all show nothing of spawns.
pub fn show_nothing(shown: &[Showing]) -> bool
    ensures { result ≡ list_all marks.shows_nothing shown.now }
{
    shown.iter().all(|one| one.shows_nothing())
}

/// What is found of a resource, and what it shows of spawns. Refuses `NotProfile`, and `Memory`.
#[tactic(auto, unfolding(json_items::specs::Resources::resource_form))]
fn find_marked<S: Source>(
    alloc: Global,
    value: &S,
) -> Result<(Validation<Resource>, Showing), Refusal>
    ensures { FindsAs IsMarked result (resource_form (S.content value.now)) }
{
    check_members(value, RESOURCE_MEMBERS)?;
    let resource = Resource::find(alloc, value)?;
    let shown = Showing::find(alloc, value)??;
    Ok((resource, shown))
}

/// What is found of resources. Refuses `NotProfile`, and `Memory`.
fn find_items<S: Source>(alloc: Global, items: &[S]) -> Result<FoundPool, Refusal>
    ensures { FindsAs IsPool result (items_read resource_form (items_of
        (map S.content items.now))) }
{
    let mut resources = Ok(Items::new(Vec::with_capacity(alloc, items.len())?));
    let mut shown = Vec::with_capacity(alloc, items.len())?;
    for item in items {
        let (resource, shows) = find_marked(alloc, item)?;
        push_found(&mut resources, resource)?;
        shown.push(shows)?;
    }
    let shown = Items::new(shown);
    Ok(FoundPool { resources, shown })
}

/// What is found of a list of resources. Refuses `NotProfile`, and `Memory`.
fn find_list<S: Source>(alloc: Global, value: &S) -> Result<FoundPool, Refusal>
    ensures { FindsAs IsPool result (list_form resource_form (S.content value.now)) }
{
    let items = value.items().ok_or(Refusal::NotProfile)?;
    find_items(alloc, items)
}

impl FoundPool {
    /// What is found of the pool under a name, an empty one where nothing stands there. Refuses
    /// `NotProfile` where something else does, and `Memory`.
    pub fn find<S: Source>(alloc: Global, value: &S, name: &str) -> Result<FoundPool, Refusal>
        // Proved: A pool is found with what each of its resources shows, which is known also where
        // their names aren't valid.
        // By `FoundPool::find_under`, `FoundPool::is_bare`.
        ensures { FindsAs IsPool result
            (pool_form resource_form (get name.now (S.content value.now))) }
    {
        match value.member(name) {
            Some(pool) => find_list(alloc, pool),
            None => find_items::<S>(alloc, &[]),
        }
    }

    /// What is found of the pool under a name. Refuses `NotProfile` where none stands there, and
    /// `Memory`.
    pub fn find_under<S: Source>(alloc: Global, value: &S, name: &str) -> Result<FoundPool, Refusal>
        ensures { FindsAs IsPool result
            (option_and_then (list_form resource_form) (get name.now (S.content value.now))) }
    {
        let pool = value.member(name).ok_or(Refusal::NotProfile)?;
        find_list(alloc, pool)
    }

    /// Whether its resources show nothing of spawns.
    pub fn is_bare(&self) -> bool
        ensures { result ≡ list_all marks.shows_nothing self.now.shown }
    {
        show_nothing(self.shown.as_slice())
    }
}
