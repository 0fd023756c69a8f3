//! Laws of the words that the contracts of this crate use. Each function does nothing: its contract
//! is the law.

ghost use Rattle.merge.specs.Laws as law;

/// Whether a part fits is a test.
pub fn whether_a_part_fits_is_a_test()
    // Proved: Fitting is a test; the part that is made of a ticket fits it, and merging it changes
    // nothing but the audit.
    // By `laws::a_made_part_fits`, `laws::a_made_part_changes_nothing`.
    ensures { law.FitsIsTested }
{}

/// The part that is made of a ticket for a spawn fits it.
pub fn a_made_part_fits()
    ensures { law.MadePartFits }
{}

/// Putting back the part that is made of a ticket changes nothing, but that the audit tells of it.
pub fn a_made_part_changes_nothing()
    ensures { law.MadePartChangesNothing }
{}

/// The merge of a part that fits moves nothing, and of the rows by id it makes those of the claim
/// the part's; the parent of the spawned node has an audit more.
pub fn a_merge_is_the_plain_merge()
    // Proved: A merge moves nothing in the plain ticket, changes the rows of the claim and adds
    // the audit, and leaves it valid, if no Status in the part is reserved.
    // By `places`, `rows`; `laws::a_merge_keeps_a_ticket_valid`.
    ensures places { law.PutOfPlaces }
    ensures rows { law.PutOfRows }
{}

/// A ticket stays valid as a part that fits is merged in which no Status is reserved.
pub fn a_merge_keeps_a_ticket_valid()
    ensures { law.PutIsValid }
{}

/// Where the records stand well beside the ticket they go on to do so after a merge. The master
/// then holds what the spawn claimed, and all else has the holder that it had.
pub fn a_merge_gives_the_claim_back()
    // Proved: Behind a merge the master holds what was claimed, and other holders stay.
    // By `apart`, `claimed`, `others`.
    ensures apart { law.MergeKeepsApart }
    ensures claimed { law.MergedClaimIsMasters }
    ensures others { law.MergeKeepsOthers }
{}
