//! A ticket at one of its nodes.

use ticket_rows::Rows;

/// The nodes of a ticket around one of them, in preorder: those in front of it, its own with those
/// below it, and those behind; and how deep it stands.
#[derive(Drop)]
pub struct At<'a> {
    pub front: Rows<'a>,
    pub below: Rows<'a>,
    pub behind: Rows<'a>,
    pub depth: u32,
}

impl<'a> At<'a> {
    ghost use Rattle.std.specs.Prelude.{◌≡◌, ◌-◌, ◌<◌, ◌≤◌, length, drop, take, slice_get, Some};
    ghost use Rattle.ticket_items.specs.declared.node_row.NodeRow.{NodeRow};

    /// Around the node whose row, with those below it, stands between these bounds.
    pub(crate) fn between(rows: &Rows<'a>, from: usize, to: usize) -> At<'a>
        requires apart { from < to }
        requires within { to ≤ length rows.now }
        ensures front { result.front ≡ take from rows.now }
        ensures below { result.below ≡ take (to - from) (drop from rows.now) }
        ensures behind { result.behind ≡ drop to rows.now }
        ensures depth { (r : NodeRow) → slice_get rows.now from ≡ Some r
            → result.depth ≡ r.depth }
    {
        let front = rows.between(0, from);
        let below = rows.between(from, to);
        let behind = rows.between(to, rows.len());
        At {
            front,
            below,
            behind,
            depth: rows.at(from).depth,
        }
    }

    /// How many nodes stand above it.
    pub fn levels(&self) -> u32
        ensures { result ≡ self.now.depth - 1 }
    {
        self.depth.saturating_sub(1)
    }
}
