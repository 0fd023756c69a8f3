//! The lines of a day in turn.

ghost use Rattle.std.specs.Prelude.{◌≡◌, ◌↔◌, ◌+◌, ◌≤◌, ◌++◌, ◌∷◌, [], ℕ, List, IfOk, OnOk, OnErr};
ghost use Rattle.std.specs.Prelude.{vec_capacity, vec_len};
ghost use Rattle.shop_day.specs.Done as done;
ghost use Rattle.shop_day.specs.Replayed as replayed;
ghost use Rattle.world.specs.Changing.{Changer, Holds, MayChange};
ghost use Rattle.world.specs.Showing.{shows};

use crate::doing::line_outcome;
use crate::line::Line;
use crate::outcome::Outcome;
use keepers::Keep;
use master_core::Master;
use std::alloc::{AllocError, Global};
use stored_state::KeptSeat;
use worker_core::Worker;
use world::Seats;

/// Pushes an outcome, which is dropped where memory runs out.
fn push(outcomes: &mut Vec<Outcome>, outcome: Outcome) -> Result<(), AllocError>
    ensures items { OnOk result (outcomes.new.items ≡ outcomes.old.items ++ outcome ∷ []) }
    ensures len { OnOk result (vec_len outcomes.new ≡ vec_len outcomes.old + 1) }
    ensures capacity { vec_capacity outcomes.old ≤ vec_capacity outcomes.new }
    ensures full { OnErr result (vec_capacity outcomes.old ≤ vec_len outcomes.old) }
{
    match outcomes.push(outcome) {
        Ok(()) => Ok(()),
        Err(_) => Err(AllocError),
    }
}

/// What lines come to in turn.
fn line_outcomes<K: Keep>(
    alloc: Global,
    shop: &mut Seats<KeptSeat<Master, K>, KeptSeat<Worker, K>>,
    lines: Vec<Line>,
) -> Result<Vec<Outcome>, AllocError>
    ensures done { IfOk result (λ outcomes. done.DoLines lines.items outcomes.items
        shop.old shop.new) }
    ensures err { OnErr result (done.IsCutOff lines.items shop.old shop.new) }
{
    let mut outcomes = Vec::with_capacity(alloc, lines.len())?;
    for line in lines {
        push(&mut outcomes, line_outcome(alloc, shop, line)?)?;
    }
    Ok(outcomes)
}

/// What the command lines of a day come to in turn, at a shop whose controllers stand beside honest
/// keepers. Each writes what its step gives out, or gives up; a line that gives up may be given
/// again. Refuses where memory runs out for what is written.
pub fn run_day<K: Keep>(
    alloc: Global,
    shop: &mut Seats<KeptSeat<Master, K>, KeptSeat<Worker, K>>,
    lines: Vec<Line>,
) -> Result<Vec<Outcome>, AllocError>
    // Proved: **What the command lines of a day write, over files whose saves may be cut off, and
    // what is shown at its end, are those of one ticket with one table of holders**: where a line
    // gave up, a controller had stopped in the step that the line asked for. Where memory runs out
    // for what is written, the lines came as far as one, of which nothing is told: what it asks
    // for happened to its end, or not yet.
    // By `done`, `one_ticket`, `err`, `cut`, `alone`, `held`; `line_outcome`: `done`, `untold`.
    // Not proved: that a line doesn't give up where its keeper doesn't fail.
    ensures done { IfOk result (λ outcomes. done.DoLines lines.items outcomes.items
        shop.old shop.new) }
    ensures one_ticket { IfOk result (λ outcomes. replayed.IsOneTicket lines.items
        outcomes.items shop.old shop.new) }
    ensures err { OnErr result (done.IsCutOff lines.items shop.old shop.new) }
    ensures cut { OnErr result (replayed.IsCutOff lines.items shop.old shop.new) }
    ensures alone { (c d : Changer) (x : List ℕ)
        → MayChange shop.new c x → MayChange shop.new d x → c ≡ d }
    ensures held { (c : Changer) (x : List ℕ)
        → MayChange shop.new c x ↔ Holds (shows shop.new).shop c x }
{
    // A shop is kept in order: that is known where its messages are named.
    let _ = shop.messages();
    let outcomes = line_outcomes(alloc, shop, lines);
    let _ = shop.messages();
    outcomes
}
