//! Whether the parts of a worker that were stored are those of one.

ghost use Rattle.std.specs.Prelude.{◌≡◌, ◌&&◌, not, true, false};
ghost use Rattle.std.specs.List.{All, list_all};
ghost use Rattle.std.specs.Str.{bytes_eq};
ghost use Rattle.ticket_rows.specs.Copies.{with_copies};
ghost use Rattle.ticket_rows.specs.Ticket.{IsValid};
ghost use Rattle.worker_core.specs.Stored as stored;
ghost use Rattle.worker_core.specs.Worker as worker;
ghost use Rattle.worker_core.specs.Worker.{IsKeptEntry};

use crate::entry::Entry;
use crate::stage::Stage;
use ticket_tree::{Id, Part};

/// Whether the node of a part has the Status of its end, if the work on it has ended.
fn has_ended_so(phase: Stage, part: &Part) -> bool
    ensures { result ≡ worker.has_ended_so phase part.now }
{
    match phase {
        Stage::Open | Stage::Declined => true,
        Stage::Done(end) | Stage::Closed(end) => match part.rows().first() {
            None => unreachable!(),
            Some(root) => root.status.as_str() == end.word(),
        },
    }
}

/// Whether a part can be that of an entry.
fn is_part_of(entry: &Entry, part: &Part) -> bool
    ensures test { result ≡ stored.is_part_of entry.now part.now }
    ensures valid { IsValid (with_copies part.now.rows part.now.rw part.now.ro) }
{
    part.spawn_id() == entry.spawn_id && part.is_sound() && has_ended_so(entry.phase, part)
}

/// Whether an entry can be one of a worker.
fn is_entry(entry: &Entry) -> bool
    ensures test { result ≡ stored.is_entry entry.now }
    ensures kept { result ≡ true → IsKeptEntry entry.now }
{
    match &entry.part {
        None => !entry.phase.keeps_part(),
        Some(part) => entry.phase.keeps_part() && is_part_of(entry, part),
    }
}

/// Whether each entry can be one of a worker.
fn are_entries(entries: &[Entry]) -> bool
    ensures test { result ≡ list_all stored.is_entry entries.now }
    ensures kept { result ≡ true → All IsKeptEntry entries.now }
{
    for entry in entries {
        if !is_entry(entry) {
            return false;
        }
    }
    true
}

/// Whether these can be the parts of a worker, if no two entries are of one spawn.
pub fn are_parts(name: &Id, master: &Id, entries: &[Entry]) -> bool
    ensures test { result
        ≡ (not (bytes_eq name.now master.now) && list_all stored.is_entry entries.now) }
    ensures apart { result ≡ true → bytes_eq name.now master.now ≡ false }
    ensures kept { result ≡ true → All IsKeptEntry entries.now }
{
    name != master && are_entries(entries)
}
