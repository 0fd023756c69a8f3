ghost use Rattle.std.specs.Prelude.{◌≡◌, ℕ, List, Some, not, is_some, if◌then◌else◌};
ghost use Rattle.std.specs.Prelude.{◌∷◌, ◌++◌, [], length, true, IfOk, OnErr, OnOk};
ghost use Rattle.std.specs.Str.{bytes_eq};
ghost use Rattle.ticket_items.specs.Ids.{are_distinct};
ghost use Rattle.ticket_rows.specs.Index.{Finds, Shape, Tells, ids_in, shape_of, spot_under};

use crate::places::Places;
use crate::runs::{lengthen, parents_of, runs_of};
use crate::spot::Spot;
use std::alloc::{AllocError, Global};
use std::collections::BTreeMap;
use ticket_items::{Id, NodeRow};

/// Where each id of a ticket stands, and how many nodes stand below each node. Ids are kept in
/// their own order, so that whoever chooses them can make no look-up cost more.
#[derive(Drop)]
pub struct Index {
    spots: BTreeMap<Id, Spot>,
    places: Places,
    /// The node above each, in the order of coming; the first one's is itself.
    parents: Vec<usize>,
    runs: Vec<usize>,
}

/// Puts a spot under an id. Whether the id is new.
fn add_spot(spots: &mut BTreeMap<Id, Spot>, id: &Id, spot: Spot) -> Result<bool, AllocError>
    ensures new { IfOk result (λ new. new ≡ not (is_some (spot_under spots.old id.now))) }
    ensures added { OnOk result ((x : List ℕ) → spot_under spots.new x
        ≡ (if bytes_eq id.now x then Some spot else spot_under spots.old x)) }
    ensures err { OnErr result ((x : List ℕ) → spot_under spots.new x ≡ spot_under spots.old x) }
{
    let known = spots.insert(id.clone()?, spot)?;
    Ok(known.is_none())
}

/// Puts the ids of a row in, behind which no row has come. Whether each id stands once.
fn add_row(spots: &mut BTreeMap<Id, Spot>, node: usize, row: &NodeRow) -> Result<bool, AllocError>
    ensures { (shapes : List Shape) (places : List ℕ) → Finds shapes spots.old places
        → are_distinct (ids_in shapes) ≡ true → node ≡ length shapes
        → IfOk result (λ distinct. Tells (shapes ++ shape_of row.now ∷ []) distinct spots.new
        (places ++ node ∷ [])) }
{
    if !add_spot(spots, &row.id, Spot::OfNode { node })? {
        return Ok(false);
    }
    let pool = row.resources.as_slice();
    for place in 0..pool.len() {
        if !add_spot(spots, &pool[place].id, Spot::InPool { home: node, place })? {
            return Ok(false);
        }
    }
    Ok(true)
}

impl Index {
    ghost use Rattle.std.specs.Prelude.{◌≡◌, ◌<◌, [], ℕ, List, None};
    ghost use Rattle.std.specs.Prelude.{Some, suc, false, true, is_some};
    ghost use Rattle.std.specs.Prelude.{if◌then◌else◌, length, slice_get, IfOk};
    ghost use Rattle.std.specs.Prelude.{IfSome, OnErr, OnOk};
    ghost use Rattle.std.specs.List.{insert};
    ghost use Rattle.std.specs.Option.{option_and_then};
    ghost use Rattle.std.specs.Str.{bytes_eq};
    ghost use Rattle.ticket_items.specs.Ids.{are_distinct, mem};
    ghost use Rattle.ticket_items.specs.declared.node_row.NodeRow.{NodeRow};
    ghost use Rattle.ticket_rows.specs.Boxed.{contents};
    ghost use Rattle.ticket_rows.specs.ChangedRow.{at_place, end_behind};
    ghost use Rattle.ticket_rows.specs.Index.{Finds, IsIndex, node_at, resource_at, runs_of};
    ghost use Rattle.ticket_rows.specs.Index.{shapes_of, spot_under, with_more};
    ghost use Rattle.ticket_rows.specs.Ticket.{depths, ids};

    /// The index of these rows; none where an id stands twice.
    pub fn of(alloc: Global, rows: &[NodeRow]) -> Result<Option<Index>, AllocError>
        ensures distinct { IfOk result (λ made. is_some made ≡ are_distinct (ids rows.now)) }
        ensures index { IfOk result (λ made. IfSome made (IsIndex rows.now)) }
    {
        let mut spots = BTreeMap::new(alloc);
        for node in 0..rows.len() {
            if !add_row(&mut spots, node, &rows[node])? {
                return Ok(None);
            }
        }
        let places = Places::with_count(alloc, rows.len())?;
        let runs = runs_of(alloc, rows)?;
        let parents = parents_of(alloc, runs.as_slice())?;
        Ok(Some(Index {
            spots,
            places,
            parents,
            runs,
        }))
    }

    /// Whether the id stands there.
    pub fn has(&self, id: &Id) -> bool
        ensures { result ≡ is_some (spot_under self.now.spots id.now) }
    {
        self.spots.contains_key(id)
    }

    /// Where the node of an id stands.
    pub fn node(&self, id: &Id) -> Option<usize>
        ensures { result ≡ option_and_then (node_at self.now.places.items)
            (spot_under self.now.spots id.now) }
    {
        match self.spots.get(id)? {
            Spot::OfNode { node } => self.places.get(*node),
            Spot::InPool { .. } => None,
        }
    }

    /// Where the node stands in whose pool the resource of an id is, and its place in the pool.
    pub fn resource(&self, id: &Id) -> Option<(usize, usize)>
        ensures { result ≡ option_and_then (resource_at self.now.places.items)
            (spot_under self.now.spots id.now) }
    {
        match self.spots.get(id)? {
            Spot::OfNode { .. } => None,
            Spot::InPool { home, place } => {
                let home = self.places.get(*home)?;
                Some((home, *place))
            }
        }
    }

    /// How many nodes stand below the one at a place.
    pub fn below(&self, place: usize) -> usize
        requires { place < length self.now.runs.items }
        ensures { slice_get self.now.runs.items place ≡ Some result }
    {
        self.runs[place]
    }

    /// Puts the id of a new node in, which is to stand last below the one at a place; where it will
    /// stand. Without memory nothing changes.
    pub fn add_node(
        &mut self,
        rows: &[Box<NodeRow>],
        place: usize,
        id: Id,
    ) -> Result<usize, AllocError>
        requires index { IsIndex (contents rows.now) self.old }
        requires within { place < length (contents rows.now) }
        requires distinct { are_distinct (ids (contents rows.now)) ≡ true }
        requires new { mem id (ids (contents rows.now)) ≡ false }
        ensures end { (r : NodeRow) → slice_get (contents rows.now) place ≡ Some r
            → IfOk result (λ end. end ≡ end_behind (contents rows.now) place r) }
        ensures ok { (r new : NodeRow) → slice_get (contents rows.now) place ≡ Some r → new.id ≡ id
            → new.resources ≡ [] → new.depth ≡ suc r.depth
            → IfOk result (λ end. IsIndex (insert (contents rows.now) end new) self.new) }
        ensures err { OnErr result (IsIndex (contents rows.now) self.new) }
    {
        let end = place + 1 + self.runs[place];
        let row = rows[place].as_ref();
        let parent = self.count_before(&row.id);
        self.places.reserve()?;
        self.parents.reserve(1)?;
        self.runs.reserve(1)?;
        let node = self.places.len();
        self.spots.insert(id, Spot::OfNode { node })?;
        lengthen(
            &mut self.runs,
            &self.places,
            self.parents.as_slice(),
            parent,
        );
        self.places.insert(end);
        self.parents.push(parent).unwrap();
        self.runs.insert(end, 0).unwrap();
        Ok(end)
    }

    /// How many came before the node of an id.
    fn count_before(&self, id: &Id) -> usize
        ensures { (k : ℕ) → option_and_then (node_at self.now.places.items)
            (spot_under self.now.spots id.now) ≡ Some k
            → slice_get self.now.places.items result ≡ Some k }
    {
        match self.spots.get(id) {
            Some(Spot::OfNode { node }) => *node,
            _ => 0,
        }
    }

    /// Puts the id of a new resource in, which is to stand last in the pool of the node at a place.
    /// Without memory nothing changes.
    pub fn add_resource(
        &mut self,
        rows: &[Box<NodeRow>],
        place: usize,
        id: &Id,
    ) -> Result<(), AllocError>
        requires index { IsIndex (contents rows.now) self.old }
        requires distinct { are_distinct (ids (contents rows.now)) ≡ true }
        requires within { place < length (contents rows.now) }
        requires new { mem id.now (ids (contents rows.now)) ≡ false }
        ensures ok { OnOk result (Finds
            (at_place place (with_more id.now) (shapes_of (contents rows.now)))
            self.new.spots self.new.places.items) }
        ensures runs { self.new.runs.items ≡ runs_of (depths (contents rows.now)) }
        ensures parents { self.new.parents.items ≡ self.old.parents.items }
        ensures others { OnOk result ((x : List ℕ) → bytes_eq id.now x ≡ false
            → spot_under self.new.spots x ≡ spot_under self.old.spots x) }
        ensures places { self.new.places.items ≡ self.old.places.items }
        ensures err { OnErr result (IsIndex (contents rows.now) self.new) }
    {
        let row = rows[place].as_ref();
        let home = self.count_before(&row.id);
        let spot = Spot::InPool {
            home,
            place: row.resources.as_slice().len(),
        };
        add_spot(&mut self.spots, id, spot)?;
        Ok(())
    }

    /// Takes an id out.
    pub fn take_out(&mut self, id: &Id)
        ensures spots { (x : List ℕ) → spot_under self.new.spots x
            ≡ (if bytes_eq id.now x then None else spot_under self.old.spots x) }
        ensures places { self.new.places.items ≡ self.old.places.items }
        ensures parents { self.new.parents.items ≡ self.old.parents.items }
        ensures runs { self.new.runs.items ≡ self.old.runs.items }
    {
        self.spots.remove(id);
    }
}

impl Clone for Index {
    ghost use Rattle.ticket_rows.specs.Index.{AreAlike};

    ghost is_clone = { AreAlike };

    fn clone(&self) -> Result<Index, AllocError> {
        Ok(Index {
            spots: self.spots.clone()?,
            places: self.places.clone()?,
            parents: self.parents.clone()?,
            runs: self.runs.clone()?,
        })
    }
}
