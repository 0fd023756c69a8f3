use crate::boxes::{copies_in_boxes, in_boxes};
use crate::edit::{at_place, edits};
use crate::index::Index;
use crate::pools::resource_at;
use crate::rows_iter::Rows;
use std::alloc::{AllocError, Global};
use std::marker::Model;
use ticket_items::{Audit, Duplicate, Edit, Id, Link, NodeRow, Resource};

/// The nodes of a ticket in preorder. Each node and each resource is found by its id without a
/// walk.
#[derive(Drop)]
pub struct IndexedRows {
    rows: Vec<Box<NodeRow>>,
    index: Index,
}

impl Model for IndexedRows {
    ghost use Rattle.std.specs.Prelude.{List};
    ghost use Rattle.ticket_items.specs.declared.node_row.NodeRow.{NodeRow};
    ghost use Rattle.ticket_rows.specs.Boxed.{contents};
    ghost use Rattle.ticket_rows.specs.Index.{IsIndex};

    ghost Value = { List NodeRow };

    ghost view = { λ a. contents a.rows.items };

    ghost invariant = { λ a. IsIndex (contents a.rows.items) a.index };
}

impl IndexedRows {
    ghost use Rattle.std.specs.Prelude.{◌≡◌, ◌∷◌, ◌++◌, [], ◌<◌, ◌≤◌};
    ghost use Rattle.std.specs.Prelude.{None, Some, false, true, length};
    ghost use Rattle.std.specs.Prelude.{is_some, slice_get, slice_set, if◌then◌else◌};
    ghost use Rattle.std.specs.Prelude.{IfOk, IfSome, IsOk, OnErr};
    ghost use Rattle.std.specs.Prelude.{OnOk, slice_index_or};
    ghost use Rattle.std.specs.List.{list_all, list_any, position};
    ghost use Rattle.std.specs.Option.{option_copied, option_map, option_map_or};
    ghost use Rattle.std.specs.Str.{bytes_eq};
    ghost use Rattle.ticket_items.specs.Ids.{are_distinct, mem};
    ghost use Rattle.ticket_rows.specs.ChangedRow.{at_place, changed_place, end_behind};
    ghost use Rattle.ticket_items.specs.Edit.{grows};
    ghost use Rattle.ticket_rows.specs.Edit.{edited_rows, refusal_of};
    ghost use Rattle.ticket_rows.specs.Homes as homes;
    ghost use Rattle.ticket_rows.specs.OneRow as one;
    ghost use Rattle.ticket_rows.specs.Place.{BoundsNodesBelow, Place, node_places};
    ghost use Rattle.ticket_rows.specs.Place as tree;
    ghost use Rattle.ticket_rows.specs.Index.{resource_place, shape_of, shapes_of};
    ghost use Rattle.ticket_rows.specs.Ticket.{IsValid, depths, has_node, ids, row_of};
    ghost use Rattle.ticket_rows.specs.Ticket as valid;
    ghost use Rattle.ticket_rows.specs.Outline.{is_outline};
    ghost use Rattle.ticket_items.specs.declared.node_row.NodeRow.{NodeRow};

    /// These nodes; none where an id stands twice.
    pub fn of(alloc: Global, rows: Vec<NodeRow>) -> Result<Option<IndexedRows>, AllocError>
        // Proved: Rows are indexed just where their ids are distinct, and then it is told whether
        // their links are resolved.
        // By `IndexedRows::are_resolved`.
        ensures { IfOk result (λ made. made
            ≡ (if are_distinct (ids rows.items) then Some rows.items else None)) }
    {
        let Some(index) = Index::of(alloc, rows.as_slice())? else {
            return Ok(None);
        };
        let rows = in_boxes(alloc, rows)?;
        Ok(Some(IndexedRows { rows, index }))
    }

    /// The nodes.
    pub fn rows(&self) -> Rows<'_>
        ensures { result ≡ self.now }
    {
        Rows::of_boxes(self.rows.as_slice())
    }

    /// Where the row of a node stands.
    pub fn place(&self, id: &Id) -> Option<usize>
        // Proved: By the index, which is always that of its rows, places, nodes, resources, homes
        // and what stands below are found.
        // By `IndexedRows::node`, `IndexedRows::is_below`, `IndexedRows::resource`,
        // `IndexedRows::home_of`, `IndexedRows::rows`; `IndexedRows::subtree`: `found`, `known`.
        ensures { result ≡ position (λ r. bytes_eq r.id id.now) self.now }
    {
        self.index.node(id)
    }

    /// The row at a place.
    pub(crate) fn at(&self, place: usize) -> &NodeRow
        requires { place < length self.now }
        ensures { result.now ≡ slice_index_or self.now place result.now }
    {
        self.rows[place].as_ref()
    }

    /// Where the row stands in whose pool the resource of an id is, and its place in the pool.
    fn spot(&self, id: &Id) -> Option<(usize, usize)>
        ensures { result ≡ resource_place (shapes_of self.now) id.now }
    {
        self.index.resource(id)
    }

    /// Where the row stands in whose pool the resource of an id is.
    pub(crate) fn home_place(&self, id: &Id) -> Option<usize>
        ensures { result ≡ position
            (λ r. list_any (λ x. bytes_eq x.id id.now) r.resources) self.now }
    {
        match self.spot(id) {
            None => None,
            Some((home, _)) => Some(home),
        }
    }

    /// The resource of an id.
    pub fn resource(&self, id: &Id) -> Option<&Resource>
        // Wants: valid rows.
        requires { IsValid self.now }
        ensures { option_copied result ≡ homes.resource_of self.now id.now }
    {
        match self.spot(id) {
            None => None,
            Some((home, place)) => resource_at(self.at(home), place),
        }
    }

    /// The id of the node in whose pool the resource of an id is.
    pub fn home_of(&self, id: &Id) -> Option<&Id>
        ensures { option_copied result ≡ homes.home_of self.now id.now }
    {
        match self.home_place(id) {
            None => None,
            Some(home) => Some(&self.at(home).id),
        }
    }

    /// Whether a node or a resource has the id.
    pub(crate) fn has_id(&self, id: &Id) -> bool
        ensures { result ≡ mem id.now (ids self.now) }
    {
        self.index.has(id)
    }

    /// The row of a node.
    pub fn node(&self, id: &Id) -> Option<&NodeRow>
        ensures { option_copied result ≡ row_of self.now id.now }
    {
        match self.place(id) {
            None => None,
            Some(place) => Some(self.at(place)),
        }
    }

    /// Where the rows end that stand deeper behind a place.
    fn run_end(&self, place: usize) -> usize
        requires { place < length self.now }
        ensures end { (r : NodeRow) → slice_get self.now place ≡ Some r
            → result ≡ end_behind self.now place r }
        ensures within { result ≤ length self.now }
    {
        let below = self.index.below(place);
        place + 1 + below
    }

    /// Where the nodes below a node stand, itself among them: the first row, and the end.
    pub fn subtree(&self, id: &Id) -> Option<(usize, usize)>
        // Wants: valid rows.
        requires { IsValid self.now }
        ensures found { IfSome result (λ b. BoundsNodesBelow self.now id.now b.0 b.1) }
        ensures known { is_some result ≡ has_node self.now id.now }
    {
        match self.place(id) {
            None => None,
            Some(from) => Some((from, self.run_end(from))),
        }
    }

    /// Whether the node `lower` is `upper` or below it.
    pub fn is_below(&self, lower: &Id, upper: &Id) -> bool
        // Wants: valid rows.
        requires { IsValid self.now }
        ensures { result ≡ tree.is_below (node_places self.now) lower.now upper.now }
    {
        match self.subtree(upper) {
            None => false,
            Some((from, to)) => match self.place(lower) {
                None => false,
                Some(place) => from <= place && place < to,
            },
        }
    }

    /// Whether the resource of the id is at home at the row at a place, or above it.
    fn reaches(&self, place: usize, id: &Id) -> bool
        requires tree { is_outline (depths self.now) ≡ true }
        requires distinct { are_distinct (ids self.now) ≡ true }
        ensures { (p : Place) → slice_get (node_places self.now) place ≡ Some p
            → result ≡ option_map_or (λ h. tree.below h p) (homes.home_of self.now id.now) false }
    {
        match self.home_place(id) {
            None => false,
            Some(home) => home <= place && place < self.run_end(home),
        }
    }

    /// Whether each of these links of the row at a place names a resource that is.
    fn links_resolve(&self, place: usize, links: &[Link]) -> bool
        requires tree { is_outline (depths self.now) ≡ true }
        requires distinct { are_distinct (ids self.now) ≡ true }
        ensures { (p : Place) → slice_get (node_places self.now) place ≡ Some p
            → result ≡ list_all (λ l. option_map_or (λ h. tree.below h p)
            (homes.home_of self.now l.rref) false) links.now }
    {
        for link in links {
            if !self.reaches(place, &link.rref) {
                return false;
            }
        }
        true
    }

    /// Whether each link names a resource that is at home at its node or above it.
    pub fn are_resolved(&self) -> bool
        // Wants: rows that are a tree, of distinct ids.
        requires tree { is_outline (depths self.now) ≡ true }
        requires distinct { are_distinct (ids self.now) ≡ true }
        ensures { result ≡ valid.are_resolved self.now }
    {
        let rows = self.rows();
        for place in 0..rows.len() {
            let row = rows.at(place);
            if !self.links_resolve(place, row.links.as_slice()) {
                return false;
            }
        }
        true
    }

    /// Does an edit that isn't refused, whose place is known. Without memory nothing changes.
    pub(crate) fn change(
        &mut self,
        alloc: Global,
        place: usize,
        edit: Edit,
        at: u64,
    ) -> Result<(), AllocError>
        requires valid { IsValid self.old }
        requires open { refusal_of edit self.old ≡ None }
        requires place { changed_place edit self.old ≡ Some place }
        ensures ok { OnOk result (self.new ≡ edited_rows edit at self.old) }
        ensures err { OnErr result (self.new ≡ self.old) }
        ensures in_place { grows edit ≡ false → IsOk result }
    {
        edits::change(alloc, &mut self.rows, &mut self.index, place, edit, at)
    }

    /// Puts an audit last at the node at a place. Without memory nothing changes.
    pub(crate) fn append(&mut self, place: usize, audit: Audit) -> Result<(), AllocError>
        requires { place < length self.old }
        ensures ok { OnOk result (self.new
            ≡ at_place place (λ r. record r { audits = r.audits ++ audit ∷ [] }) self.old) }
        ensures err { OnErr result (self.new ≡ self.old) }
    {
        at_place::append(&mut self.rows, place, audit)
    }

    /// Puts a row in the place of another of its id, as deep and with a pool of the
    /// same ids.
    pub(crate) fn replace(&mut self, place: usize, row: NodeRow)
        requires { option_map shape_of (slice_get self.old place) ≡ Some (shape_of row) }
        ensures { self.new ≡ slice_set self.old place row }
    {
        *self.rows[place] = row;
    }

    /// Puts a resource in the place of the one of its id, which is in the pool of the row at a
    /// place.
    pub(crate) fn replace_resource(&mut self, home: usize, resource: Resource)
        requires distinct { are_distinct (ids self.old) ≡ true }
        requires home { position (λ r. list_any (λ x. bytes_eq x.id resource.id) r.resources)
            self.old ≡ Some home }
        ensures { self.new ≡ one.replaced_resource resource self.old }
    {
        let from = self.index.resource(&resource.id).map_or(0, |spot| spot.1);
        at_place::replace_resource(&mut self.rows, home, from, resource);
    }
}

impl Clone for IndexedRows {
    ghost use Rattle.std.specs.Prelude.{◌≡◌};

    ghost is_clone = { λ rows copied. copied ≡ rows };

    fn clone(&self) -> Result<IndexedRows, AllocError> {
        Ok(IndexedRows {
            rows: copies_in_boxes(*self.rows.allocator(), self.rows.as_slice())?,
            index: self.index.clone()?,
        })
    }
}

impl Duplicate for IndexedRows {
    ghost equal = { λ _ _ same. same };
}
