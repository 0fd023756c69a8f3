//! The records of a master's spawns, which are numbered from 1 on.

ghost use Rattle.std.specs.Prelude.{◌≡◌, suc, true};
ghost use Rattle.std.specs.Option.{option_copied};
ghost use Rattle.ticket_items.specs.SpawnId.{is_spawn_number};
ghost use Rattle.master_core.specs.Master as master;

use spawn::SpawnRec;
use ticket_tree::SpawnId;

/// Where the record of a spawn stands, if there is one.
pub fn place_of(spawn: SpawnId) -> usize
    ensures { suc result ≡ spawn }
{
    spawn.number() as usize - 1
}

/// The record of a spawn.
pub fn record_of<'a>(records: &'a [SpawnRec], spawn: SpawnId) -> Option<&'a SpawnRec>
    requires { master.IsNumbered records.now }
    ensures { option_copied result ≡ master.record_of records.now spawn }
{
    records.get(place_of(spawn))
}

/// Whether a spawn is out.
pub fn is_spawn_out(records: &[SpawnRec], spawn: SpawnId) -> bool
    requires { master.IsNumbered records.now }
    ensures { result ≡ master.is_spawn_out records.now spawn }
{
    match record_of(records, spawn) {
        None => false,
        Some(record) => record.is_out(),
    }
}

/// The number of the next spawn, or one that no spawn has where that is none.
pub fn next_number(records: &[SpawnRec]) -> u32
    ensures valid { is_spawn_number result ≡ is_spawn_number (master.next_number records.now) }
    ensures number { is_spawn_number result ≡ true → result ≡ master.next_number records.now }
{
    match u32::try_from(records.len()) {
        Ok(count) => count.saturating_add(1),
        Err(_) => u32::MAX,
    }
}
