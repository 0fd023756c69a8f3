ghost use Rattle.std.specs.Prelude.{◌≡◌, ◌+◌, ◌*◌, ◌^◌, ◌<◌, ◌≤◌};
ghost use Rattle.std.specs.Prelude.{ℕ, Some, IfOk, IfSome, length, map};
ghost use Rattle.std.specs.Prelude.{slice_get};
ghost use Rattle.ticket_rows.specs.Labels.{AreLabels, Fits, Rise, even_labels, place_in, places_of};

use std::alloc::{AllocError, Global};
use std::marker::Model;

/// How far a new label stands behind the one before it, where there is room for that.
const STEP: u64 = 4_294_967_296;

/// The places of nodes, in the order of their coming. Each node has a label, and labels rise with
/// the places, so that a new node changes nothing of another: its label is between those of its
/// neighbours.
#[derive(Drop)]
pub struct Places {
    /// In the order of coming.
    labels: Vec<u64>,
    /// In the order of places.
    order: Vec<u64>,
}

impl Model for Places {
    ghost use Rattle.std.specs.Prelude.{◌&&◌, length, nat_lt};
    ghost use Rattle.std.specs.Vec.{vec_capacity};
    ghost use Rattle.ticket_rows.specs.Labels.{AreLabels, PlacesView, places_of};

    ghost Value = { PlacesView };

    ghost view = { λ a. record {
      items = places_of a.labels.items a.order.items;
      has_room = nat_lt (length a.labels.items) (vec_capacity a.labels)
          && nat_lt (length a.order.items) (vec_capacity a.order);
    } };

    ghost invariant = { λ a. AreLabels a.labels.items a.order.items };
}

/// How far labels are apart where so many are spread evenly.
fn gap_of(count: usize) -> u64
    requires { count < 2 ^ 63 }
    ensures some { 0 < result }
    ensures wide { count + 1 < 2 ^ 63 → 2 ≤ result }
    ensures within { (count + 1) * result < 2 ^ 64 }
{
    u64::MAX / (count as u64 + 1)
}

/// The label at a place where labels are spread evenly.
fn even_label(place: usize, gap: u64) -> u64
    requires some { 0 < gap }
    requires within { (place + 1) * gap < 2 ^ 64 }
    ensures { result ≡ (place + 1) * gap }
{
    (place as u64 + 1) * gap
}

/// Where a label stands. The one at a guessed place is looked at first.
fn place_of(order: &[u64], label: u64, guess: usize) -> usize
    requires { Rise order.now }
    ensures { result ≡ place_in order.now label }
{
    if guess < order.len() && order[guess] == label {
        return guess;
    }
    match order.binary_search(&label) {
        Ok(place) => place,
        Err(place) => place,
    }
}

/// A label between two others, if there is one.
fn between(below: u64, above: u64) -> Option<u64>
    ensures { IfSome result (λ label. (below < label) × (label < above)) }
{
    let half = above.saturating_sub(below) / 2;
    if half == 0 {
        return None;
    }
    Some(below + half.min(STEP))
}

/// The greatest label in front of a place, or 0.
fn label_in_front(order: &[u64], place: usize) -> u64
    requires rise { Rise order.now }
    requires within { place ≤ length order.now }
    ensures { (k l : ℕ) → k < place → slice_get order.now k ≡ Some l → l ≤ result }
{
    if place == 0 { 0 } else { order[place - 1] }
}

/// The least label from a place on, or the greatest there can be.
fn label_from(order: &[u64], place: usize) -> u64
    requires { Rise order.now }
    ensures { (k l : ℕ) → place ≤ k → slice_get order.now k ≡ Some l → result ≤ l }
{
    if place < order.len() {
        order[place]
    } else {
        u64::MAX
    }
}

/// A label for a new node at a place, if there is one.
fn free_label(order: &[u64], place: usize) -> Option<u64>
    requires rise { Rise order.now }
    requires within { place ≤ length order.now }
    ensures { IfSome result (Fits order.now place) }
{
    between(label_in_front(order, place), label_from(order, place))
}

/// Labels the nodes anew, evenly spread.
fn relabel(labels: &mut [u64], order: &[u64], gap: u64)
    requires labels { AreLabels labels.old order.now }
    requires some { 0 < gap }
    requires within { length order.now * gap < 2 ^ 64 }
    ensures { labels.new ≡ map (λ l. (place_in order.now l + 1) * gap) labels.old }
{
    for node in 0..labels.len() {
        labels[node] = even_label(place_of(order, labels[node], node), gap);
    }
}

/// Spreads the labels evenly.
fn spread(labels: &mut [u64], order: &mut [u64], gap: u64)
    requires labels { AreLabels labels.old order.old }
    requires some { 0 < gap }
    requires within { length order.old * gap < 2 ^ 64 }
    ensures labels { AreLabels labels.new order.new }
    ensures places { places_of labels.new order.new ≡ places_of labels.old order.old }
    ensures even { (k l : ℕ) → slice_get order.new k ≡ Some l → l ≡ (k + 1) * gap }
    ensures len { length order.new ≡ length order.old }
{
    relabel(labels, order, gap);
    for place in 0..order.len() {
        order[place] = even_label(place, gap);
    }
}

/// A label for a new node at a place. Where none is left, the others are spread evenly first.
fn new_label(labels: &mut [u64], order: &mut [u64], place: usize) -> u64
    requires labels { AreLabels labels.old order.old }
    requires few { length order.old + 1 < 2 ^ 63 }
    requires within { place ≤ length order.old }
    ensures labels { AreLabels labels.new order.new }
    ensures places { places_of labels.new order.new ≡ places_of labels.old order.old }
    ensures fits { Fits order.new place result }
    ensures len { length order.new ≡ length order.old }
{
    match free_label(order, place) {
        Some(label) => label,
        None => {
            let gap = gap_of(order.len());
            spread(labels, order, gap);
            place as u64 * gap + gap / 2
        }
    }
}

/// So many labels, evenly spread.
fn even_labels(alloc: Global, count: usize, gap: u64) -> Result<Vec<u64>, AllocError>
    requires some { 0 < gap }
    requires within { (count + 1) * gap < 2 ^ 64 }
    ensures { IfOk result (λ labels. labels.items ≡ even_labels gap count) }
{
    let mut labels = Vec::with_capacity(alloc, count)?;
    for place in 0..count {
        labels.push(even_label(place, gap))?;
    }
    Ok(labels)
}

impl Places {
    ghost use Rattle.std.specs.Prelude.{◌≡◌, ◌^◌, ◌<◌, ◌≤◌, ◌++◌, ◌∷◌, [], Some, true, IfOk, OnOk};
    ghost use Rattle.std.specs.Prelude.{length, map, slice_get};
    ghost use Rattle.ticket_rows.specs.Index.{shifted_place};
    ghost use Rattle.ticket_rows.specs.Labels.{numbers_below};

    /// Those of so many nodes that came in the order in which they stand.
    pub fn with_count(alloc: Global, count: usize) -> Result<Places, AllocError>
        requires { count < 2 ^ 63 }
        ensures { IfOk result (λ places. places.items ≡ numbers_below count) }
    {
        let gap = gap_of(count);
        let labels = even_labels(alloc, count, gap)?;
        let order = even_labels(alloc, count, gap)?;
        Ok(Places { labels, order })
    }

    /// How many there are.
    pub fn len(&self) -> usize
        ensures { result ≡ length self.now.items }
    {
        self.labels.len()
    }

    /// The place of the node before which so many came.
    pub fn at(&self, node: usize) -> usize
        requires { node < length self.now.items }
        ensures { slice_get self.now.items node ≡ Some result }
    {
        place_of(self.order.as_slice(), self.labels[node], node)
    }

    /// The same, if so many came.
    pub fn get(&self, node: usize) -> Option<usize>
        ensures { result ≡ slice_get self.now.items node }
    {
        if node < self.len() {
            Some(self.at(node))
        } else {
            None
        }
    }

    /// Makes room for one more.
    pub fn reserve(&mut self) -> Result<(), AllocError>
        ensures items { self.new.items ≡ self.old.items }
        ensures room { OnOk result (self.new.has_room ≡ true) }
    {
        self.labels.reserve(1)?;
        self.order.reserve(1)
    }

    /// Puts a node in at a place.
    pub fn insert(&mut self, place: usize)
        requires room { self.old.has_room ≡ true }
        requires within { place ≤ length self.old.items }
        ensures { self.new.items ≡ map (shifted_place place) self.old.items ++ place ∷ [] }
    {
        let label = new_label(self.labels.as_mut_slice(), self.order.as_mut_slice(), place);
        self.labels.push(label).unwrap();
        self.order.insert(place, label).unwrap();
    }
}

impl Clone for Places {
    ghost use Rattle.std.specs.Prelude.{◌≡◌};

    ghost is_clone = { λ places copied. copied.items ≡ places.items };

    fn clone(&self) -> Result<Places, AllocError> {
        Ok(Places {
            labels: self.labels.clone()?,
            order: self.order.clone()?,
        })
    }
}
