//! Laws of the words that the contracts of this crate use. Each function does nothing: its contract
//! is the law.

ghost use Rattle.master_core.specs.Laws as law;
ghost use Rattle.master_core.specs.Stored.{AKeptMasterIsStored};

/// What the master may change no spawn holds, and an edit that isn't refused is of what it may
/// change.
pub fn what_a_master_may_change_it_holds()
    ensures held { law.MayChangeIsHeld }
    ensures edits { law.EditIsOfHeld }
{}

/// An order changes the record of no spawn and no part of one that is out. What always holds of a
/// master holds then.
pub fn an_order_changes_no_spawn()
    // Proved: An order changes no record that is there, and no part that is out.
    // By `spawns`, `kept`.
    ensures spawns { law.OrderKeepsSpawns }
    ensures kept { law.OrderIsKept }
{}

/// A message changes nothing but where it puts in a part that comes back, or where it frees a spawn
/// that its worker declines, and then no part of another spawn that is out; an answer changes
/// nothing else. What always holds of a master holds then.
pub fn a_message_changes_as_it_ends_a_spawn()
    // Proved: A message changes something as it merges or frees a spawn alone, and then no other
    // part that is out.
    // By `ends`, `answers`, `spawns`, `kept`.
    ensures ends { law.MessageEndsSpawns }
    ensures answers { law.AnswerFreesAlone }
    ensures spawns { law.MessageKeepsSpawns }
    ensures kept { law.MessageIsKept }
{}

/// A part is put in once: its spawn is out before and not after, it stays in whatever is ordered or
/// comes, and the part changes nothing when it comes again.
pub fn a_spawn_is_merged_once()
    // Proved: A part is merged once.
    // By `merged`, `stays`, `again`.
    ensures merged { law.MergedIsIn }
    ensures stays { law.InStaysIn }
    ensures again { law.ReturnIsAlready }
{}

/// What goes out is made of the record of the new spawn, or of the one that is sent once more or
/// asked for, and that spawn is out; an edit sends nothing.
pub fn what_goes_out_tells_the_record()
    // Proved: What goes out is of a record that is out.
    // By `sent`, `asked`, `none`.
    ensures sent { law.SubmitIsOfRecord }
    ensures asked { law.AbortIsOfRecord }
    ensures none { law.NothingIsSent }
{}

/// A master of which all holds that always does is one whose stored parts are taken.
pub fn a_kept_master_is_stored()
    ensures { AKeptMasterIsStored }
{}
