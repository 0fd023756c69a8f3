//! Laws of the words that the contracts of this crate use. Each function does nothing: its contract
//! is the law.

ghost use Rattle.courier.specs.Laws as law;

/// Nothing is given for a destination while something is in flight to it.
pub fn one_is_given_at_once()
    // Proved: From a give until its end nothing more is given for that destination; what is
    // settled isn't given again unless it is put again; each end brings each other item of the
    // destination a place nearer; what fails goes behind the others, and none is lost.
    // By `laws::what_is_settled_never_comes_back`, `laws::each_comes_nearer`,
    // `laws::what_fails_goes_behind`.
    ensures { law.OneAtOnce }
{}

/// What is settled is never given again, unless it is put again.
pub fn what_is_settled_never_comes_back()
    ensures { law.NoneComesBack }
{}

/// What is out comes nearer with each end of a try, whatever is done besides.
pub fn each_comes_nearer()
    ensures { law.EachComesNearer }
{}

/// What fails goes behind the others of its destination.
pub fn what_fails_goes_behind()
    ensures { law.WhatFailsGoesBehind }
{}

/// While a destination waits whose moment has passed, each other has at most one try.
pub fn each_takes_its_turn()
    // Proved: While a destination waits whose moment has passed, each other is given at most once,
    // and once more for each time that it turned out not to be sent.
    ensures { law.EachTakesItsTurn }
{}

/// A destination that waits and is heard from can be sent to at once.
pub fn what_is_heard_is_given()
    // Proved: Where a destination waits and is heard from, something is given at that moment,
    // until it was given itself; and a failure behind that waits 1 second.
    // By `laws::heard_waits_anew`.
    ensures { law.WhatIsHeardIsGiven }
{}

/// A failure behind that waits the first delay only.
pub fn heard_waits_anew()
    ensures { law.HeardWaitsAnew }
{}

/// Waiting doubles with each failure in a row, from the first delay to the last.
pub fn delays_double()
    // Proved: Delays double with each failure up to the longest, and begin anew behind a success.
    ensures { law.DelaysDouble }
{}
