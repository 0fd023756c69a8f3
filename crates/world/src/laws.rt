//! Laws of the words that the contracts of this crate use. Each function does nothing: its contract
//! is the law.

ghost use Rattle.world.specs.Laws as law;

/// A message that was sent is taken by its receiver, whenever it comes and however often: no
/// controller of a shop refuses what another sent.
pub fn what_was_sent_is_taken()
    // Proved: What a controller sent, its receiver takes, whenever it comes.
    ensures { law.SentIsTaken }
{}

/// A step that can't be saved, so that the old state is held or the new one, is as if its
/// controller had stopped before its state was stored, or before its message was sent.
pub fn failed_save_is_stop()
    ensures { law.FailedSaveIsStop }
{}

/// No two may change one node or resource: neither the master and a worker, nor two workers, nor
/// one worker through two of its entries.
pub fn no_two_may_change_one()
    ensures { law.NoTwoMayChangeOne }
{}

/// In the shop that is shown the master may change exactly what it holds, and a worker through one
/// of its entries exactly what that entry's spawn holds, while it is open.
pub fn holders_may_change()
    ensures { law.HoldersMayChange }
{}

/// Whatever happens, the part of each spawn is put in at most once, and that of a spawn that is in
/// never again.
pub fn each_spawn_is_merged_once()
    ensures { law.EachIsMergedOnce }
{}

/// From the beginning of a shop on, the audits of the node above a spawned one tell that its part
/// was put in just as the answers do: once, past those of the ticket in the beginning, if one
/// answer does, and else never.
pub fn merges_are_told()
    ensures { law.MergesAreTold }
{}

/// The ticket that is seen in what the controllers show is the master's.
pub fn ticket_is_seen()
    ensures { law.TicketIsSeen }
{}

/// What that ticket shows of the spawns that are out, the copies to change and to read of its
/// resources among them, is what the master shows.
pub fn marks_are_shown()
    ensures { law.MarksAreShown }
{}

/// Whatever happens, the answers and what the controllers show are those of one ticket with one
/// table of holders.
pub fn events_are_replayed()
    ensures { law.EventsAreReplayed }
{}
