use deliveries::{Deliveries, Flight, Progress};
use std::alloc::Global;
use std::test::Fail;
use ticket_items::{Refusal, SpawnId};

/// How what is in flight ends.
#[derive(Clone, Copy)]
enum End {
    Failed,
    Taken,
    Refused(u16),
    Withdrawn,
}

/// What is done, and what is to come of it.
#[derive(Clone, Copy)]
enum Step {
    /// A controller has these spawns out now, each to the destination beside it.
    Look(usize, &'static [(u32, usize)]),
    /// What is given at a moment: to which destination, of which controller, and of which spawn.
    Given(u64, Option<(usize, usize, u32)>),
    /// What is in flight to a destination ends so, at a moment.
    Ends(usize, End, u64),
    /// What is sent to the first destination fails, at each of these moments.
    AllFail(&'static [u64]),
    /// The next moment at which something is to be given.
    Wake(u64),
    /// A destination is heard from at a moment.
    Heard(usize, u64),
    /// How a spawn of a controller fares.
    Fares(usize, u32, Option<Progress>),
    /// A spawn of a controller goes once more, whether it is out or not.
    Again(usize, u32, bool),
}

use Step::{Again, AllFail, Ends, Fares, Given, Heard, Look, Wake};

/// A controller has these spawns out now, each to the destination beside it.
fn look(
    alloc: Global,
    deliveries: &mut Deliveries,
    controller: usize,
    out: &[(u32, usize)],
) -> Result<(), Refusal> {
    let mut told = Vec::new(alloc);
    for (number, line) in out {
        if *line < deliveries.destinations() {
            told.push((SpawnId::new(*number)?, *line))?;
        }
    }
    deliveries.look(alloc, controller, told.as_slice())?;
    Ok(())
}

/// What is given at a moment: to which destination, of which controller, and of which spawn.
fn given(deliveries: &mut Deliveries, now: u64) -> Option<(usize, usize, u32)> {
    let Flight {
        line,
        controller,
        spawn,
    } = deliveries.next(now)?;
    Some((line, controller, spawn.number()))
}

/// What is in flight to a destination, if anything is, ends so.
fn ends(deliveries: &mut Deliveries, line: usize, end: End, now: u64) {
    if !deliveries.flies(line) {
        return;
    }
    match end {
        End::Failed => deliveries.fail_flight(line, now),
        End::Taken => deliveries.accept_flight(line, now),
        End::Refused(number) => deliveries.refuse_flight(line, number, now),
        End::Withdrawn => deliveries.withdraw_flight(line),
    }
}

/// What is sent to the first destination at these moments fails.
fn all_fail(deliveries: &mut Deliveries, moments: &[u64]) {
    for at in moments {
        let _flight = deliveries.next(*at);
        ends(deliveries, 0, End::Failed, *at);
    }
}

/// Whether a step comes to what it is to come to.
fn comes_so(alloc: Global, deliveries: &mut Deliveries, step: &Step) -> Result<bool, Refusal> {
    match step {
        Look(controller, out) => look(alloc, deliveries, *controller, out)?,
        Given(now, wanted) => return Ok(given(deliveries, *now) == *wanted),
        Ends(line, end, now) => ends(deliveries, *line, *end, *now),
        AllFail(moments) => all_fail(deliveries, moments),
        Wake(at) => return Ok(deliveries.wake() == Some(*at)),
        Heard(line, now) => deliveries.hear_from(*line, *now),
        Fares(controller, spawn, wanted) => {
            return Ok(deliveries.progress(*controller, SpawnId::new(*spawn)?) == *wanted);
        }
        Again(controller, spawn, is_out) => {
            return Ok(deliveries.give_again(*controller, SpawnId::new(*spawn)?)? == *is_out);
        }
    }
    Ok(true)
}

/// How many of these steps, to two destinations, come to what they are to come to, up to the first
/// that doesn't.
fn as_wanted(alloc: Global, steps: &[Step]) -> Result<usize, Refusal> {
    let mut deliveries = Deliveries::new(alloc);
    let _first = deliveries.add_destination(alloc, 0)?;
    let _second = deliveries.add_destination(alloc, 0)?;
    for (number, step) in steps.iter().enumerate() {
        if !comes_so(alloc, &mut deliveries, step)? {
            return Ok(number);
        }
    }
    Ok(steps.len())
}

/// One is in flight to each destination, and the next goes once that has ended.
const ONE_IN_FLIGHT: &[Step] = &[
    Look(0, &[(1, 0), (2, 0), (3, 1), (4, 0)]),
    Given(0, Some((0, 0, 1))),
    Given(0, Some((1, 0, 3))),
    Given(9_999_999, None),
    Ends(0, End::Taken, 10),
    Given(10, Some((0, 0, 2))),
    Ends(1, End::Taken, 11),
    Given(11, None),
    Ends(0, End::Withdrawn, 12),
    Given(12, Some((0, 0, 4))),
];

#[test]
fn one_is_in_flight_to_each_destination(rt: HostRuntime) -> Result<(), Fail> {
    assert_eq!(rt; as_wanted(rt.alloc(), ONE_IN_FLIGHT)?, ONE_IN_FLIGHT.len());
    Ok(())
}

/// What failed goes behind the others, and its destination waits twice as long each time.
const FAILURES: &[Step] = &[
    Look(0, &[(1, 0), (2, 0)]),
    Given(0, Some((0, 0, 1))),
    Ends(0, End::Failed, 0),
    Wake(1_000),
    Given(999, None),
    Given(1_000, Some((0, 0, 2))),
    Ends(0, End::Failed, 1_000),
    Wake(3_000),
    Given(2_999, None),
    Given(3_000, Some((0, 0, 1))),
    Ends(0, End::Failed, 3_000),
    Wake(7_000),
    Given(6_999, None),
    Given(7_000, Some((0, 0, 2))),
    Ends(0, End::Failed, 7_000),
    Wake(15_000),
    Given(14_999, None),
    Given(15_000, Some((0, 0, 1))),
    Ends(0, End::Failed, 15_000),
    Wake(31_000),
    Given(30_999, None),
    Given(31_000, Some((0, 0, 2))),
    Ends(0, End::Failed, 31_000),
    Wake(63_000),
    Given(62_999, None),
    Given(63_000, Some((0, 0, 1))),
    Ends(0, End::Failed, 63_000),
    Wake(123_000),
    Given(122_999, None),
    Given(123_000, Some((0, 0, 2))),
    Ends(0, End::Failed, 123_000),
    Wake(183_000),
    Given(182_999, None),
    // An answer ends the waiting: the next one goes at once, and waits a second again.
    Given(183_000, Some((0, 0, 1))),
    Ends(0, End::Taken, 183_100),
    Given(183_100, Some((0, 0, 2))),
    Ends(0, End::Failed, 183_200),
    Wake(184_200),
];

#[test]
fn what_failed_goes_behind_and_waits(rt: HostRuntime) -> Result<(), Fail> {
    assert_eq!(rt; as_wanted(rt.alloc(), FAILURES)?, FAILURES.len());
    Ok(())
}

/// A destination that waits is heard from.
const HEARD_FROM: &[Step] = &[
    Look(0, &[(1, 0)]),
    AllFail(&[0, 1_000, 3_000, 7_000, 15_000, 31_000, 63_000]),
    Wake(123_000),
    // What comes from another, or from one that isn't there, ends no waiting.
    Heard(1, 70_000),
    Heard(2, 70_000),
    Given(70_000, None),
    // Behind what comes from it the next goes at once, and waits a second again, and then two.
    Heard(0, 70_000),
    Wake(70_000),
    Given(70_000, Some((0, 0, 1))),
    Given(70_000, None),
    Ends(0, End::Failed, 70_100),
    Given(71_099, None),
    AllFail(&[71_100]),
    Wake(73_100),
    // It comes while something is in flight: if that fails, a second is waited, and not four.
    Given(73_100, Some((0, 0, 1))),
    Heard(0, 73_200),
    Given(73_200, None),
    Ends(0, End::Failed, 73_300),
    Wake(74_300),
    // Where the moment has come already, it stays what it was.
    Heard(0, 80_000),
    Wake(74_300),
];

#[test]
fn what_waits_goes_as_its_destination_is_heard_from(rt: HostRuntime) -> Result<(), Fail> {
    assert_eq!(rt; as_wanted(rt.alloc(), HEARD_FROM)?, HEARD_FROM.len());
    Ok(())
}

/// What was taken or refused comes no more by itself.
const ANSWERS: &[Step] = &[
    Look(0, &[(1, 0), (2, 0)]),
    Given(0, Some((0, 0, 1))),
    Ends(0, End::Taken, 0),
    Given(0, Some((0, 0, 2))),
    Ends(0, End::Refused(21), 0),
    Look(0, &[(1, 0), (2, 1)]),
    Given(0, None),
    Fares(0, 1, Some(Progress::Taken)),
    Fares(0, 2, Some(Progress::Refused(21))),
    // By hand it goes once more, and what was away and is out anew goes as ever.
    Again(0, 2, true),
    Given(0, Some((1, 0, 2))),
    Look(0, &[]),
    Fares(0, 1, None),
    Again(0, 1, false),
    Look(0, &[(1, 0)]),
    Given(0, Some((0, 0, 1))),
];

#[test]
fn what_was_answered_comes_no_more(rt: HostRuntime) -> Result<(), Fail> {
    assert_eq!(rt; as_wanted(rt.alloc(), ANSWERS)?, ANSWERS.len());
    Ok(())
}

/// Two controllers have something out to one destination.
const SHARED: &[Step] = &[
    Look(7, &[(1, 0)]),
    Look(3, &[(1, 0), (2, 0)]),
    Given(0, Some((0, 7, 1))),
    Given(0, None),
    Ends(0, End::Failed, 0),
    Given(1_000, Some((0, 3, 1))),
    Ends(0, End::Taken, 1_000),
    Fares(7, 1, Some(Progress::Waiting)),
    // What is out no longer is passed over.
    Look(3, &[(1, 0)]),
    Given(1_000, Some((0, 7, 1))),
];

#[test]
fn controllers_share_a_destination(rt: HostRuntime) -> Result<(), Fail> {
    assert_eq!(rt; as_wanted(rt.alloc(), SHARED)?, SHARED.len());
    Ok(())
}
