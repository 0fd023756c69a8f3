//! Laws of the words that the contracts of this crate use. Each function does nothing: its contract
//! is the law.

ghost use Rattle.deliveries.specs.Laws as law;

/// What is given is out, waits, and goes to the destination for which it is.
pub fn what_is_given_waits()
    ensures { law.GivenWaits }
{}

/// Nothing is in flight to two destinations.
pub fn none_is_in_flight_twice()
    ensures { law.NoneTwice }
{}

/// What waits is in the line of its destination, so the courier comes to it.
pub fn what_waits_is_in_its_line()
    ensures { law.WaitsInLine }
{}
