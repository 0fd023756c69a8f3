ghost use Rattle.std.specs.Prelude.{◌≡◌, true, false, IfOk, MatchOption};
ghost use Rattle.worker_core.specs.Numbers.{are_distinct_numbers};
ghost use Rattle.worker_core.specs.SpawnIndex.{IsSpawnIndex};
ghost use Rattle.worker_core.specs.Worker as worker;

use crate::entry::Entry;
use controller::QueueStatus;
use std::alloc::{AllocError, Global};
use std::collections::BTreeMap;
use std::marker::Model;
use ticket_rows::pools;
use ticket_tree::{Id, Part, SpawnId};

/// The entries of a worker in the order in which they were made, no two of one spawn. The one of a
/// spawn is found without a walk.
#[derive(Drop)]
pub struct Entries {
    /// An entry may be changed where it stands, and is of the same spawn then.
    pub(crate) list: Vec<Entry>,
    /// Where the entry of each spawn stands. They are in order, so that numbers that somebody chose
    /// are found as fast as others.
    spawns: BTreeMap<SpawnId, usize>,
}

impl Model for Entries {
    ghost use Rattle.std.specs.Prelude.{List};
    ghost use Rattle.worker_core.specs.SpawnIndex.{IsSpawnIndex};
    ghost use Rattle.worker_core.specs.declared.entry.Entry.{Entry};

    ghost Value = { List Entry };

    ghost view = { λ a. a.list.items };

    ghost invariant = { λ a. IsSpawnIndex a.spawns a.list.items };
}

/// Whether an id is that of a node of a part, of a resource of its pools, or of a copy that may be
/// changed.
fn has(part: &Part, id: &Id) -> bool
    ensures { result ≡ worker.has part.now id.now }
{
    pools::has_id(part.rows(), id) || pools::holds(part.rw(), id)
}

/// Where the entry of each spawn stands. `None` where two entries are of one spawn.
fn spawns_of(alloc: Global, list: &[Entry]) -> Result<Option<BTreeMap<SpawnId, usize>>, AllocError>
    ensures { IfOk result (λ found. MatchOption found
        (are_distinct_numbers (worker.numbers list.now) ≡ false)
        (λ spawns. IsSpawnIndex spawns list.now)) }
{
    let mut spawns = BTreeMap::new(alloc);
    for (place, entry) in list.iter().enumerate() {
        if spawns.insert(entry.spawn_id, place)?.is_some() {
            return Ok(None);
        }
    }
    Ok(Some(spawns))
}

impl Entries {
    ghost use Rattle.std.specs.Prelude.{◌++◌, ◌∷◌, [], None, OnErr, OnOk};
    ghost use Rattle.std.specs.List.{position};
    ghost use Rattle.std.specs.Option.{option_and_then, option_copied};

    /// No entries.
    pub fn new(alloc: Global) -> Entries
        ensures { result ≡ [] }
    {
        Entries {
            list: Vec::new(alloc),
            spawns: BTreeMap::new(alloc),
        }
    }

    /// These entries. `None` where two of them are of one spawn.
    pub fn of(alloc: Global, list: Vec<Entry>) -> Result<Option<Entries>, AllocError>
        ensures { IfOk result (λ found. MatchOption found
            (are_distinct_numbers (worker.numbers list.items) ≡ false)
            (λ entries. (entries ≡ list.items)
            × (are_distinct_numbers (worker.numbers list.items) ≡ true))) }
    {
        match spawns_of(alloc, list.as_slice())? {
            None => Ok(None),
            Some(spawns) => Ok(Some(Entries { list, spawns })),
        }
    }

    /// The entries as a slice.
    pub fn as_slice(&self) -> &[Entry]
        ensures { result.now ≡ self.now }
    {
        self.list.as_slice()
    }

    /// Where the entry of a spawn stands.
    pub fn place_of(&self, spawn: SpawnId) -> Option<usize>
        ensures { result ≡ position (worker.is_of spawn) self.now }
    {
        self.spawns.get(&spawn).copied()
    }

    /// The entry of a spawn.
    pub fn entry_of(&self, spawn: SpawnId) -> Option<&Entry>
        ensures { option_copied result ≡ worker.entry_of self.now spawn }
    {
        match self.place_of(spawn) {
            None => None,
            Some(place) => Some(&self.list[place]),
        }
    }

    /// What a command of a spawn is told, which is running while there is no entry.
    pub fn response_in(&self, spawn: SpawnId) -> Result<QueueStatus, u16>
        ensures { result ≡ worker.response_in self.now spawn }
    {
        match self.entry_of(spawn) {
            None => Ok(QueueStatus::Running),
            Some(entry) => entry.phase.response(),
        }
    }

    /// The part of the entry of a spawn, while that may be changed.
    fn open_part_of(&self, spawn: SpawnId) -> Option<&Part>
        ensures { option_copied result
            ≡ option_and_then worker.open_part (worker.entry_of self.now spawn) }
    {
        match self.entry_of(spawn) {
            None => None,
            Some(entry) => entry.open_part(),
        }
    }

    /// Whether a node or a resource may be changed through the entry of a spawn.
    pub fn may_change(&self, spawn: SpawnId, id: &Id) -> bool
        ensures { result ≡ worker.may_change self.now spawn id.now }
    {
        match self.open_part_of(spawn) {
            None => false,
            Some(part) => has(part, id),
        }
    }

    /// Adds an entry of a spawn that has none, behind all others. Without memory nothing changes.
    pub fn push(&mut self, entry: Entry) -> Result<(), AllocError>
        requires { worker.entry_of self.old entry.spawn_id ≡ None }
        ensures ok { OnOk result (self.new ≡ self.old ++ entry ∷ []) }
        ensures err { OnErr result (self.new ≡ self.old) }
    {
        self.list.reserve(1)?;
        self.spawns.insert(entry.spawn_id, self.list.len())?;
        self.list.push(entry).unwrap();
        Ok(())
    }

    /// Gives up the part of the entry of a spawn, if the work on that has ended.
    pub fn close(&mut self, spawn: SpawnId)
        ensures { self.new ≡ worker.with_entry spawn worker.closed_entry self.old }
    {
        if let Some(place) = self.place_of(spawn) {
            self.list[place].close();
        }
    }
}
