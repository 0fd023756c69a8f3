use std::marker::Model;
use ticket_items::NodeRow;

/// Rows where they stand: each in a box of its own, or one behind the other.
#[derive(Clone, Copy)]
enum Run<'a> {
    Boxed(&'a [Box<NodeRow>]),
    Plain(&'a [NodeRow]),
}

impl<'a> Run<'a> {
    ghost use Rattle.std.specs.Prelude.{◌≡◌, ◌-◌, ◌<◌, ◌≤◌, drop, length, slice_get, take};
    ghost use Rattle.std.specs.Prelude.{slice_index_or};
    ghost use Rattle.std.specs.Option.{option_copied};
    ghost use Rattle.ticket_rows.specs.Boxed.{rows_of};

    fn len(self) -> usize
        ensures { result ≡ length (rows_of self.entry) }
    {
        match self {
            Run::Boxed(boxes) => boxes.len(),
            Run::Plain(rows) => rows.len(),
        }
    }

    fn at(self, place: usize) -> &'a NodeRow
        requires { place < length (rows_of self) }
        ensures { result.now ≡ slice_index_or (rows_of self.entry) place result.now }
    {
        match self {
            Run::Boxed(boxes) => boxes[place].as_ref(),
            Run::Plain(rows) => &rows[place],
        }
    }

    fn between(self, from: usize, to: usize) -> Run<'a>
        requires apart { from ≤ to }
        requires within { to ≤ length (rows_of self) }
        ensures { rows_of result ≡ take (to - from) (drop from (rows_of self.entry)) }
    {
        match self {
            Run::Boxed(boxes) => Run::Boxed(&boxes[from..to]),
            Run::Plain(rows) => Run::Plain(&rows[from..to]),
        }
    }
}

/// A run of nodes in preorder, as a ticket or a part lends it.
#[derive(Drop)]
pub struct Rows<'a> {
    run: Run<'a>,
}

impl<'a> Model for Rows<'a> {
    ghost use Rattle.std.specs.Prelude.{List};
    ghost use Rattle.ticket_items.specs.declared.node_row.NodeRow.{NodeRow};
    ghost use Rattle.ticket_rows.specs.Boxed.{rows_of};

    ghost Value = { List NodeRow };

    ghost view = { λ a. rows_of a.run };
}

impl<'a> Rows<'a> {
    ghost use Rattle.std.specs.Prelude.{◌≡◌, ◌-◌, ◌<◌, ◌≤◌, drop, length, slice_get, take};
    ghost use Rattle.std.specs.Prelude.{slice_index_or};
    ghost use Rattle.std.specs.Option.{option_copied};
    ghost use Rattle.ticket_rows.specs.Boxed.{contents};

    /// These nodes.
    pub fn new(rows: &'a [NodeRow]) -> Rows<'a>
        // Proved: A run of rows that is lent is told by length, place and bounds.
        // By `Rows::len`, `Rows::at`, `Rows::get`, `Rows::first`, `Rows::between`.
        ensures { result ≡ rows.now }
    {
        Rows {
            run: Run::Plain(rows),
        }
    }

    /// The nodes in these boxes.
    pub(crate) fn of_boxes(boxes: &'a [Box<NodeRow>]) -> Rows<'a>
        ensures { result ≡ contents boxes.now }
    {
        Rows {
            run: Run::Boxed(boxes),
        }
    }

    /// How many there are.
    pub fn len(&self) -> usize
        ensures { result ≡ length self.now }
    {
        self.run.len()
    }

    /// The node at a place.
    pub fn at(&self, place: usize) -> &'a NodeRow
        // Wants: a place that is there.
        requires { place < length self.now }
        ensures { result.now ≡ slice_index_or self.now place result.now }
    {
        self.run.at(place)
    }

    /// The node at a place, if there is one.
    pub fn get(&self, place: usize) -> Option<&'a NodeRow>
        ensures { option_copied result ≡ slice_get self.now place }
    {
        if place < self.len() {
            Some(self.at(place))
        } else {
            None
        }
    }

    /// The first node.
    pub fn first(&self) -> Option<&'a NodeRow>
        ensures { option_copied result ≡ slice_get self.now 0 }
    {
        self.get(0)
    }

    /// The nodes from one place up to another.
    pub fn between(&self, from: usize, to: usize) -> Rows<'a>
        // Wants: bounds that are there.
        requires apart { from ≤ to }
        requires within { to ≤ length self.now }
        ensures { result ≡ take (to - from) (drop from self.now) }
    {
        Rows {
            run: self.run.between(from, to),
        }
    }
}
