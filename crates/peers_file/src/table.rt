//! The table of peers.

use crate::compare::compare;
use crate::destination::Destination;
use crate::pattern::Pattern;
use std::marker::Model;

/// To which URL the messages for a name are posted: patterns and their URLs, in the byte order of
/// the patterns.
#[derive(Drop)]
pub struct PeerTable {
    rows: Vec<(Pattern, Destination)>,
}

impl Model for PeerTable {
    ghost use Rattle.peers_file.specs.Table.{IsInOrder, Rows};

    ghost Value = { Rows };

    ghost view = { λ t. t.rows.items };

    ghost invariant = { λ t. IsInOrder t.rows.items };
}

impl PeerTable {
    ghost use Rattle.std.specs.Prelude.{◌≡◌, ◌++◌, IfErr, IfOk};
    ghost use Rattle.std.specs.Prelude.{Option, is_some, length, option_map};
    ghost use Rattle.std.specs.Prelude.{slice_get};
    ghost use Rattle.std.specs.Option.{option_copied};
    ghost use Rattle.url.specs.Parts.{Parts};
    ghost use Rattle.peers_file.specs.Places.{BelongsAt, StandsAt};
    ghost use Rattle.peers_file.specs.Table as tables;

    /// The table of these rows.
    pub(crate) fn of(rows: Vec<(Pattern, Destination)>) -> PeerTable
        requires { tables.IsInOrder rows.items }
        ensures { result ≡ rows.items }
    {
        PeerTable { rows }
    }

    /// Where the pattern stands that these two pieces are, or where it belongs.
    fn search(&self, front: &[u8], end: &[u8]) -> Result<usize, usize>
        ensures found { IfOk result (StandsAt (front.now ++ end.now) self.now) }
        ensures missing { IfErr result (BelongsAt (front.now ++ end.now) self.now) }
    {
        self.rows
            .binary_search_by(|row| compare(row.0.as_bytes(), front, end))
    }

    /// The URL under the pattern that these two pieces are.
    fn under(&self, front: &[u8], end: &[u8]) -> Option<&Destination>
        ensures { option_copied result ≡ tables.url_under (front.now ++ end.now) self.now }
    {
        match self.search(front, end) {
            Ok(place) => Some(&self.rows[place].1),
            Err(_) => None,
        }
    }

    /// The URL under the longest of what a name begins with.
    fn under_front(&self, name: &[u8]) -> Option<&Destination>
        ensures { tables.IsUnderFront name.now self.now (option_copied result) }
    {
        for shorter in 0..name.len() + 1 {
            let found = self.under(&name[..name.len() - shorter], b"*");
            if found.is_some() {
                return found;
            }
        }
        None
    }

    /// The URL of a name: that under the name itself, or else under the longest of what it begins
    /// with. So many look-ups are made as it has bytes, and two more.
    pub fn url_of(&self, name: &str) -> Option<&Destination>
        // Proved: A name has the URL under a pattern which it fits, so that none which it fits
        // tells more of it and has one: the name itself tells most, and then the longest front; or
        // no pattern that it fits has one.
        // By `PeerTable::knows`.
        ensures { tables.IsUrlOf name.now self.now (option_copied result) }
    {
        let name = name.as_bytes();
        let found = self.under(name, b"");
        if found.is_some() {
            return found;
        }
        self.under_front(name)
    }

    /// How many URLs it has: one under each pattern.
    pub fn len(&self) -> usize
        // Proved: The URLs of a table are told by their places.
        // By `PeerTable::url_at`.
        ensures { result ≡ length self.now }
    {
        self.rows.len()
    }

    /// The URL of a place among them, in the byte order of their patterns.
    pub fn url_at(&self, place: usize) -> Option<&Destination>
        ensures { option_copied result
            ≡ option_map (λ row. row.1) (slice_get self.now place) }
    {
        match self.rows.get(place) {
            Some(row) => Some(&row.1),
            None => None,
        }
    }

    /// Whether a name has a URL.
    pub fn knows(&self, name: &str) -> bool
        ensures { (found : Option Parts) × tables.IsUrlOf name.now self.now found
            × (result ≡ is_some found) }
    {
        self.url_of(name).is_some()
    }
}
