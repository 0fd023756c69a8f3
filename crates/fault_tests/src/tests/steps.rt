//! A worker's work on a part, from its start to the answer that the part came back, and a spawn
//! that is given up before it came, on a keeper of which one call fails, and over disks of which a
//! save is cut off at any call: the step says so, nothing is taken until the state is loaded again,
//! and the step that is repeated then comes to the same end.

use super::lent::Lent;
use super::loads;
use super::texts::{ABORT, CLOSED_AND_DECLINED, NO_ENTRY, RETURN_TAKEN, SUBMIT};
use file_commands::step_output;
use keepers::{Cut, CutKeep, FailingKeep, Keep};
use std::alloc::{AllocError, Global};
use std::test::Fail;
use stored_state::{AnyKept, OrderBytes, Refused, TakenBytes, open_any};
use streams::Output;

/// A step of the worker: an order, or else a message, and what is written of it; and what is where
/// the step was saved already.
struct Step {
    is_order: bool,
    text: &'static str,
    at: u64,
    line: &'static str,
    again: &'static str,
}

/// The steps. Each is one call of the keeper, and the first comes behind the load.
static STEPS: [Step; 5] = [
    Step {
        is_order: false,
        text: SUBMIT,
        at: 110,
        line: "Taken S1\n",
        again: "Again S1\n",
    },
    Step {
        is_order: true,
        text: r#"{"Edit":{"Edit":"SetStatus","Node":"n1","Status":"InProgress"},"Order":"Edit","SpawnID":"S1"}"#,
        at: 120,
        line: "Edited\n",
        again: "Edited\n",
    },
    Step {
        is_order: true,
        text: r#"{"Order":"Finish","SpawnID":"S1","Status":"Completed"}"#,
        at: 130,
        line: "Finished S1\n",
        again: "Refused 31 NotOpen\n",
    },
    Step {
        is_order: false,
        text: RETURN_TAKEN,
        at: 140,
        line: "Acked S1\n",
        again: "Acked S1\n",
    },
    Step {
        is_order: false,
        text: ABORT,
        at: 150,
        line: "Declined S2\n",
        again: "Declined S2\n",
    },
];

/// The output of what was given out, as far as memory suffices for it.
fn output_of(alloc: Global, given: OrderBytes) -> Option<Output> {
    let OrderBytes { reply, message } = given;
    step_output(alloc, reply, &message).ok()
}

/// What is given out of an order.
fn ordered<K: Keep>(
    alloc: Global,
    opened: &mut AnyKept<K>,
    step: &Step,
) -> Result<OrderBytes, Refused> {
    opened.order(alloc, step.text.as_bytes(), step.at)
}

/// What is given out of a message.
fn taken<K: Keep>(
    alloc: Global,
    opened: &mut AnyKept<K>,
    step: &Step,
) -> Result<OrderBytes, Refused> {
    let TakenBytes { reply, answer, .. } = opened.take(alloc, step.text.as_bytes(), step.at)?;
    Ok(OrderBytes {
        reply,
        message: answer,
    })
}

/// The output of what is given out, as far as memory suffices for it; or why nothing is.
fn told(alloc: Global, given: Result<OrderBytes, Refused>) -> Result<Option<Output>, Refused> {
    match given {
        Ok(given) => Ok(output_of(alloc, given)),
        Err(refused) => Err(refused),
    }
}

/// The output of a step, or why there is none.
fn do_step<K: Keep>(
    alloc: Global,
    opened: &mut AnyKept<K>,
    step: &Step,
) -> Result<Option<Output>, Refused> {
    if step.is_order {
        told(alloc, ordered(alloc, opened, step))
    } else {
        told(alloc, taken(alloc, opened, step))
    }
}

/// Whether a step comes to this line.
fn comes_to<K: Keep>(alloc: Global, opened: &mut AnyKept<K>, step: &Step, line: &str) -> bool {
    match do_step(alloc, opened, step) {
        Ok(Some(output)) => output.text.as_slice().starts_with(line.as_bytes()),
        Ok(None) => false,
        Err(_) => false,
    }
}

/// Whether a step is refused so.
fn is_refused<K: Keep>(
    alloc: Global,
    opened: &mut AnyKept<K>,
    step: &Step,
    refused: Refused,
) -> bool {
    match do_step(alloc, opened, step).err() {
        Some(found) => found == refused,
        None => false,
    }
}

/// Whether the worker is stale, and is loaded again.
fn is_reloaded<K: Keep>(alloc: Global, opened: &mut AnyKept<K>) -> bool {
    match opened {
        AnyKept::Master(_) => false,
        AnyKept::Worker(kept) => kept.is_stale() && kept.reload(alloc).is_ok(),
    }
}

/// Whether a step of which the save fails is told so, and once more until the state is loaded, and
/// comes then to the line of a step that was saved, or wasn't.
fn comes_again<K: Keep>(
    alloc: Global,
    opened: &mut AnyKept<K>,
    step: &Step,
    was_saved: bool,
) -> bool {
    let line = if was_saved { step.again } else { step.line };
    is_refused(alloc, opened, step, Refused::SaveFailed)
        && is_refused(alloc, opened, step, Refused::Stale)
        && is_reloaded(alloc, opened)
        && comes_to(alloc, opened, step, line)
}

/// Whether all steps are done beside a keeper of which the k-th call fails, a save that leaves the
/// new value or the old.
fn does_all(alloc: Global, keep: &mut FailingKeep, k: usize, leaves_new: bool) -> bool {
    let Ok(mut opened) = open_any(alloc, Lent::new(keep)) else {
        return false;
    };
    for (index, step) in STEPS.iter().enumerate() {
        let done = if index + 2 == k {
            comes_again(alloc, &mut opened, step, leaves_new)
        } else {
            comes_to(alloc, &mut opened, step, step.line)
        };
        if !done {
            return false;
        }
    }
    true
}

/// Why nothing is opened beside a keeper of which the load fails.
fn not_opened(alloc: Global, keep: &mut FailingKeep) -> Option<Refused> {
    open_any(alloc, Lent::new(keep)).err()
}

#[test]
fn comes_to_the_same_end(rt: HostRuntime) -> Result<(), Fail> {
    for k in 0..=6u8 {
        for leaves_new in [false, true] {
            let bytes = Vec::from_slice(rt.alloc(), NO_ENTRY.as_bytes())?;
            let mut keep = FailingKeep::new(bytes, u64::from(k), leaves_new);
            if k == 1 {
                let refused = not_opened(rt.alloc(), &mut keep);
                assert_eq!(rt; refused, Some(Refused::LoadFailed));
            }
            let done = does_all(rt.alloc(), &mut keep, usize::from(k), leaves_new);
            assert!(rt; done, "{k} {leaves_new}");
            assert!(rt;
                loads(&mut keep, CLOSED_AND_DECLINED.as_bytes()),
                "{k} {leaves_new}"
            );
        }
    }
    Ok(())
}

/// Whether a step comes to the line of one that was saved now, or of one that was saved before.
fn comes_to_either<K: Keep>(alloc: Global, opened: &mut AnyKept<K>, step: &Step) -> bool {
    match do_step(alloc, opened, step) {
        Ok(Some(output)) => {
            let text = output.text.as_slice();
            text.starts_with(step.line.as_bytes()) || text.starts_with(step.again.as_bytes())
        }
        Ok(None) => false,
        Err(_) => false,
    }
}

/// Whether a step whose save may be cut off is done, or is told so and comes to its line or to that
/// of one that was saved, once the state is loaded.
fn comes_at_last<K: Keep>(alloc: Global, opened: &mut AnyKept<K>, step: &Step) -> bool {
    match do_step(alloc, opened, step) {
        Ok(Some(output)) => output.text.as_slice().starts_with(step.line.as_bytes()),
        Ok(None) => false,
        Err(refused) => {
            refused == Refused::SaveFailed
                && is_refused(alloc, opened, step, Refused::Stale)
                && is_reloaded(alloc, opened)
                && comes_to_either(alloc, opened, step)
        }
    }
}

/// Whether all steps are done at last.
fn does_all_at_last(alloc: Global, keep: &mut CutKeep) -> bool {
    let Ok(mut opened) = open_any(alloc, Lent::new(keep)) else {
        return false;
    };
    STEPS
        .iter()
        .all(|step| comes_at_last(alloc, &mut opened, step))
}

/// A keeper of a worker with no entry, of which the save behind so many is cut off so.
fn cut_behind(alloc: Global, saves: u8, cut: Cut) -> Result<CutKeep, AllocError> {
    let mut cuts = Vec::new(alloc);
    for _ in 0..saves {
        cuts.push(Cut { call: 0, left: 0 })?;
    }
    cuts.push(cut)?;
    let bytes = Vec::from_slice(alloc, NO_ENTRY.as_bytes())?;
    Ok(CutKeep::new(bytes, cuts))
}

/// Whether the work comes to its end where the save behind so many is cut off so.
fn ends_whole(alloc: Global, saves: u8, cut: Cut) -> Result<bool, AllocError> {
    let mut keep = cut_behind(alloc, saves, cut)?;
    let done = does_all_at_last(alloc, &mut keep);
    Ok(done && loads(&mut keep, CLOSED_AND_DECLINED.as_bytes()))
}

#[test]
fn a_save_that_is_cut_off_comes_to_the_same_end(rt: HostRuntime) -> Result<(), Fail> {
    for saves in 0..5u8 {
        for call in 1..=8u8 {
            for left in 0..5u8 {
                let cut = Cut {
                    call: u64::from(call),
                    left: usize::from(left),
                };
                assert!(rt;
                    ends_whole(rt.alloc(), saves, cut)?,
                    "{saves} {call} {left}"
                );
            }
        }
    }
    Ok(())
}
