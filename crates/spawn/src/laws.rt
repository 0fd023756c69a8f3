//! Laws of the words that the contracts of this crate use. Each function does nothing: its contract
//! is the law.

ghost use Rattle.spawn.specs.HoldingsLaws as holdings;
ghost use Rattle.spawn.specs.Laws as law;
ghost use Rattle.spawn.specs.Stored.{StandingIsATest};

/// A spawn that is out holds just what it claims, where the records stand well beside the ticket.
pub fn a_spawn_that_is_out_holds_its_claim()
    // Proved: A spawn that is out holds just its claim.
    // By `claimed`, `held`.
    ensures claimed { law.ClaimIsHeld }
    ensures held { law.HeldIsClaimed }
{}

/// The parent of a node that is out is held by the master, where the records stand well beside the
/// ticket.
pub fn the_parent_of_a_spawned_node_is_the_masters()
    // Proved: The master holds the parent of a node that is out.
    ensures { law.ParentIsMasters }
{}

/// As a spawn goes out that isn't refused, the records go on to stand well beside the ticket: the
/// claims of spawns that are out share nothing.
pub fn a_spawn_keeps_claims_apart()
    // Proved: Claims stay apart as one more goes out, and as the master edits what it holds.
    // By `laws::an_edit_keeps_claims`: `claims`, `apart`.
    ensures { law.SpawnKeepsApart }
{}

/// As a spawn that is out ends, so that its record isn't out, and nothing moves, the records go on
/// to stand well beside the ticket. The master then holds what the spawn claimed, and all else has
/// the holder that it had.
pub fn a_spawn_that_ends_gives_its_claim_back()
    // Proved: As a spawn ends the master holds what it claimed, and other holders stay.
    // By `apart`, `claimed`, `others`.
    ensures apart { law.EndKeepsApart }
    ensures claimed { law.EndedClaimIsMasters }
    ensures others { law.EndKeepsOthers }
{}

/// The part of a good record is sound.
pub fn the_part_of_a_good_record_is_sound()
    // Proved: A good record's part is sound, and the same while its claim, its ancestors and the
    // job's id are.
    // By `laws::a_part_stays_while_its_claim_does`.
    ensures { law.PartIsSound }
{}

/// The part of a spawn stays the same while nothing of what it claims moves and nothing is added
/// there, no row of it changes, and the nodes above it keep their job parts.
pub fn a_part_stays_while_its_claim_does()
    ensures { law.PartStays }
{}

/// An edit of what the master holds changes no claim of a good record that is out, and nothing that
/// is linked outside its node; so the records go on to stand well beside the ticket.
pub fn an_edit_keeps_claims()
    ensures claims { law.EditKeepsClaims }
    ensures apart { law.EditKeepsApart }
{}

/// The part of a good record shows what the spawn claims as it stands in the ticket, and nothing
/// else.
pub fn a_part_shows_its_claim()
    // Proved: A good record's part shows what is claimed as it stands, and nothing else.
    // By `claimed`, `no_more`; `laws::rows_below_a_node_have_its_places`.
    ensures claimed { law.PartShowsClaim }
    ensures no_more { law.PartShowsNoMore }
{}

/// The rows below a node, so many levels higher that it is the root, have the places that they had,
/// with their paths cut at the node.
pub fn rows_below_a_node_have_its_places()
    ensures { law.CutPlaces }
{}

/// Whether records stand well beside a ticket is a test: whether those that are out are good, and
/// no two of them claim one thing.
pub fn whether_records_stand_well_is_a_test()
    ensures { StandingIsATest }
{}

/// Holders that are those of a ticket and its records go on to be so: an edit of what the master
/// holds changes none, a spawn gives its claim to it, which none held, and the end of a spawn gives
/// the claim back.
pub fn holders_are_kept_in_step()
    // Proved: The table that is kept stays in step with edits, spawns and ends of spawns, and a
    // claim that isn't refused is free.
    // By `edits`, `free`, `spawns`, `ends`.
    ensures edits { holdings.EditKeepsTable }
    ensures free { holdings.ClaimIsFree }
    ensures spawns { holdings.SpawnKeepsTable }
    ensures ends { holdings.EndKeepsTable }
{}
