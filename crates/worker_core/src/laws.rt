//! Laws of the words that the contracts of this crate use. Each function does nothing: its contract
//! is the law.

ghost use Rattle.worker_core.specs.Laws as law;
ghost use Rattle.worker_core.specs.Stored.{AKeptWorkerIsStored};

/// What a worker may change through a spawn stands in the part of that spawn's entry, which is
/// open; and an edit that isn't refused is of what it may change.
pub fn what_a_worker_may_change_is_in_an_open_entry()
    ensures held { law.MayChangeIsHeld }
    ensures edits { law.EditIsOfHeld }
{}

/// After an order each entry is there still. The part that it has is the same in what no worker may
/// change, and in each row that the worker couldn't change; an open entry is open still or
/// finished, and one that is finished is the same. What always holds of a worker holds then.
pub fn an_order_changes_what_may_be_changed()
    // Proved: An order changes only what may be changed, a finished entry not at all.
    // By `entries`, `kept`.
    ensures entries { law.OrderKeepsEntries }
    ensures kept { law.OrderIsKept }
{}

/// After a message each entry is there still, and is the same; but one that is done gives up its
/// part once a message that isn't refused tells that it has come, and an open one ends as it is to
/// be given up. An answer that tells of a refusal changes nothing. What always holds of a worker
/// holds then.
pub fn a_message_keeps_or_closes_entries()
    // Proved: A message changes no entry, but that one gives up its part once that is told to have
    // come back, and an open one ends as it is to be given up; an answer that refuses changes
    // nothing.
    // By `entries`, `answers`, `kept`.
    ensures entries { law.MessageKeepsEntries }
    ensures answers { law.RefusalChangesNothing }
    ensures kept { law.MessageIsKept }
{}

/// A part that was taken has an entry; and once it has, the same message changes nothing, and is
/// answered by how far the entry is.
pub fn a_part_is_taken_once()
    // Proved: A part is taken once.
    // By `taken`, `again`.
    ensures taken { law.SubmitIsTaken }
    ensures again { law.SubmitIsAgain }
{}

/// A spawn of which there is no entry as it is to be given up is declined, and stays so, whatever
/// is ordered or comes: no late part of it is ever taken.
pub fn a_declined_spawn_stays_so()
    // Proved: A spawn that is to be given up before it is taken is declined, and stays so whatever
    // is ordered or comes.
    // By `declined`, `stays`.
    ensures declined { law.AbortIsDeclined }
    ensures stays { law.DeclinedStays }
{}

/// What goes out is made of a finished entry alone, and is the same each time.
pub fn what_is_given_back_tells_the_entry()
    // Proved: What goes back is of a finished entry, and what is sent once more behind that is the
    // same.
    // By `entry`, `again`.
    ensures entry { law.ReturnIsOfEntry }
    ensures again { law.ResentIsSame }
{}

/// A worker of which all holds that always does is one whose stored parts are taken.
pub fn a_kept_worker_is_stored()
    ensures { AKeptWorkerIsStored }
{}
