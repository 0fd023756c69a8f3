ghost use Rattle.std.specs.Prelude.{◌≡◌, ◌<◌, ◌++◌, ◌∷◌, [], ℕ, true};
ghost use Rattle.std.specs.Prelude.{false, Some, None, length, All, take};
ghost use Rattle.std.specs.Prelude.{IfOk, IfSome, OnOk, OnErr, is_some, if◌then◌else◌};
ghost use Rattle.courier.specs.Destination as words;
ghost use Rattle.courier.specs.Table as table;
ghost use Rattle.deliveries.specs.Ledger as ledger;
ghost use Rattle.deliveries.specs.Outbox.{progress_after_look, progress_in};
ghost use Rattle.deliveries.specs.Sending.{IsGiven, IsPut};
ghost use Rattle.deliveries.specs.declared.progress.Progress.TheVariants as progress;
ghost use Rattle.deliveries.specs.declared.thing.Thing.{Thing};

use crate::flight::Flight;
use crate::giving::next_due;
use crate::looking::{mark, send, send_all};
use crate::outboxes::Outboxes;
use crate::progress::Progress;
use crate::routes::Routes;
use crate::thing::Thing;
use courier::Courier;
use std::alloc::{AllocError, Global};
use std::marker::Model;
use ticket_items::SpawnId;

/// What the controllers of a server have out, and what of it is to be sent next. Controllers and
/// destinations have numbers from 0. A look costs as many look-ups as spawns are out; each other
/// call costs the logarithm of how many destinations there are, and of how much is out to one, but
/// for a call of `hear_from` that ends a waiting, which walks over the destinations that wait.
#[derive(Drop)]
pub struct Deliveries {
    courier: Courier,
    routes: Routes,
    boxes: Outboxes,
}

impl Model for Deliveries {
    ghost use Rattle.deliveries.specs.Ledger.{Ledger, IsTied};

    ghost Value = { Ledger };

    ghost view = { λ a. record {
      destinations = a.courier;
      routes = a.routes;
      outboxes = a.boxes;
    } };

    ghost invariant = { λ a. IsTied a.courier a.routes a.boxes };
}

impl Deliveries {
    /// No destinations, and nothing is out.
    pub fn new(alloc: Global) -> Deliveries
        // Proved: Deliveries begin with no destination and nothing out; one more destination has
        // the next number; and it is told when something is due.
        // By `Deliveries::destinations`, `Deliveries::wake`; `Deliveries::add_destination`:
        // `number`, `ok`, `err`.
        ensures { result ≡ record { destinations = []; routes = []; outboxes = [] } }
    {
        Deliveries {
            courier: Courier::new(alloc),
            routes: Routes::new(alloc),
            boxes: Outboxes::new(alloc),
        }
    }

    /// How many destinations there are.
    pub fn destinations(&self) -> usize
        ensures { result ≡ length self.now.destinations }
    {
        self.courier.lines()
    }

    /// One destination more, with nothing out. Answers its number.
    pub fn add_destination(&mut self, alloc: Global, now: u64) -> Result<usize, AllocError>
        ensures number { IfOk result (λ line. line ≡ length self.old.destinations) }
        ensures ok { OnOk result (self.new ≡ record self.old {
          destinations = self.old.destinations ++ words.new_at now ∷ [];
        }) }
        ensures err { OnErr result (self.new ≡ self.old) }
    {
        self.courier.add(alloc, now)
    }

    /// A controller has just these spawns out now, each for the destination beside it: where it is
    /// in flight to another it stays for that. Each that waits is in the line of its destination,
    /// behind the others. Without memory a front of them may be in their lines, and nothing else
    /// has changed.
    pub fn look(
        &mut self,
        alloc: Global,
        controller: usize,
        out: &[(SpawnId, usize)],
    ) -> Result<(), AllocError>
        // Wants: destinations that are there.
        requires { All (λ o. o.1 < length self.old.destinations) out.now }
        // Proved: Behind a look a controller has out just the spawns that are told, each with the
        // progress that it had, and `Waiting` where it had none; what the others have out stays.
        // What of them waits was put in lines, one behind the other in the order in which it was
        // told, and nothing else was. Without memory what all have out stays, and a front of them
        // was put.
        // By `looked`, `others`, `put`, `boxes`, `err`.
        ensures looked { OnOk result ((s : ℕ)
            → progress_in (ledger.outbox_at self.new.outboxes controller) s
            ≡ progress_after_look (ledger.outbox_at self.old.outboxes controller) out.now s) }
        ensures others { OnOk result ((k : ℕ) → (k ≡ controller → ⊥)
            → ledger.outbox_at self.new.outboxes k ≡ ledger.outbox_at self.old.outboxes k) }
        ensures put { OnOk result (IsPut controller (ledger.outbox_at self.old.outboxes controller)
            out.now self.old.destinations self.new.routes self.new.destinations) }
        ensures boxes { OnErr result ((k : ℕ) → ledger.outbox_at self.new.outboxes k
            ≡ ledger.outbox_at self.old.outboxes k) }
        ensures err { OnErr result ((k : ℕ) × IsPut controller
            (ledger.outbox_at self.old.outboxes controller) (take k out.now)
            self.old.destinations self.new.routes self.new.destinations) }
    {
        self.boxes.reach(alloc, controller)?;
        let outbox = send_all(
            alloc,
            &mut self.courier,
            &mut self.routes,
            controller,
            self.boxes.get(controller),
            out,
        )?;
        self.boxes.set(controller, outbox);
        Ok(())
    }

    /// What is to be sent now, and is in flight from then on, until the caller tells how it ended.
    /// Needs no memory.
    pub fn next(&mut self, now: u64) -> Option<Flight>
        // Proved: What is given is out, waits, and goes to the destination for which it is. What
        // the courier gave before and doesn't wait for that was withdrawn; where nothing is given,
        // nothing that is due is in a line any more.
        // By `given`, `routes`, `boxes`; `laws::what_is_given_waits`.
        ensures given { IsGiven now self.old.routes self.old.outboxes self.old.destinations
            self.new.destinations result }
        ensures routes { self.new.routes ≡ self.old.routes }
        ensures boxes { self.new.outboxes ≡ self.old.outboxes }
    {
        next_due(&mut self.courier, &self.routes, &self.boxes, now)
    }

    /// Whether something is in flight to a destination.
    pub fn flies(&self, line: usize) -> bool
        // Proved: A thing is in flight to one destination at most; what waits is in the line of
        // its destination.
        // By `tied`, `value`; `Deliveries::progress`: `tied`, `value`;
        // `laws::none_is_in_flight_twice`, `laws::what_waits_is_in_its_line`.
        ensures value { result ≡ table.flies_at self.now.destinations line }
        ensures tied { ledger.IsTied self.now.destinations self.now.routes self.now.outboxes }
    {
        self.courier.flies(line)
    }

    /// When there may be something to be sent again, if anything is in a line.
    pub fn wake(&self) -> Option<u64>
        ensures { table.IsWake self.now.destinations result }
    {
        self.courier.wake()
    }

    /// The progress of what a controller has out of a spawn, if it has it out.
    pub fn progress(&self, controller: usize, spawn: SpawnId) -> Option<Progress>
        ensures value { result ≡ progress_in (ledger.outbox_at self.now.outboxes controller) spawn }
        ensures tied { ledger.IsTied self.now.destinations self.now.routes self.now.outboxes }
    {
        self.boxes.progress(&Thing { controller, spawn })
    }

    /// What is in flight to a destination failed: it goes behind the others of that.
    pub fn fail_flight(&mut self, line: usize, now: u64)
        // Wants: a destination to which something is in flight.
        requires { table.flies_at self.old.destinations line ≡ true }
        // Proved: A failure changes no progress.
        ensures { self.new ≡ record self.old {
          destinations = table.with_changed (words.after_failed_try now) self.old.destinations line;
        } }
    {
        self.courier.fail_flight(line, now);
    }

    /// An answer accepts what is in flight to a destination.
    pub fn accept_flight(&mut self, line: usize, now: u64)
        // Wants: a destination to which something is in flight.
        requires { table.flies_at self.old.destinations line ≡ true }
        // Proved: An answer that accepts or refuses what is in flight changes its progress to that
        // where it is still out, one that it wasn't sent drops it, and no other progress is
        // changed.
        // By `destinations`, `routes`, `progress`; `Deliveries::refuse_flight`,
        // `Deliveries::withdraw_flight`: `destinations`, `routes`, `progress`.
        ensures destinations { self.new.destinations
            ≡ table.with_changed (words.after_answer now) self.old.destinations line }
        ensures routes { self.new.routes ≡ self.old.routes }
        ensures progress { ledger.IsSettled self.old line (Some progress.Taken) self.new.outboxes }
    {
        mark(
            &self.courier,
            &self.routes,
            &mut self.boxes,
            line,
            Some(Progress::Taken),
        );
        self.courier.settle_flight(line, now);
    }

    /// An answer refuses what is in flight to a destination, with this number.
    pub fn refuse_flight(&mut self, line: usize, number: u16, now: u64)
        // Wants: a destination to which something is in flight.
        requires { table.flies_at self.old.destinations line ≡ true }
        ensures destinations { self.new.destinations
            ≡ table.with_changed (words.after_answer now) self.old.destinations line }
        ensures routes { self.new.routes ≡ self.old.routes }
        ensures progress { ledger.IsSettled self.old line (Some (progress.Refused number))
            self.new.outboxes }
    {
        mark(
            &self.courier,
            &self.routes,
            &mut self.boxes,
            line,
            Some(Progress::Refused(number)),
        );
        self.courier.settle_flight(line, now);
    }

    /// What is in flight to a destination wasn't sent, since it turned out to be out no longer.
    pub fn withdraw_flight(&mut self, line: usize)
        // Wants: a destination to which something is in flight.
        requires { table.flies_at self.old.destinations line ≡ true }
        ensures destinations { self.new.destinations
            ≡ table.with_changed words.after_withdrawal self.old.destinations line }
        ensures routes { self.new.routes ≡ self.old.routes }
        ensures progress { ledger.IsSettled self.old line None self.new.outboxes }
    {
        mark(&self.courier, &self.routes, &mut self.boxes, line, None);
        self.courier.withdraw_flight(line);
    }

    /// Something came from a destination, so it is there: what waits for it may be sent at once. An
    /// unknown number changes nothing.
    pub fn hear_from(&mut self, line: usize, now: u64)
        // Proved: A destination that is heard from is due then, and nothing else has changed.
        ensures { self.new ≡ record self.old {
          destinations = table.with_changed (words.after_hearing now) self.old.destinations line;
        } }
    {
        self.courier.hear_from(line, now);
    }

    /// What a controller has out of a spawn is to be sent once more. Answers whether it has it out.
    pub fn give_again(&mut self, controller: usize, spawn: SpawnId) -> Result<bool, AllocError>
        // Proved: What is settled isn't given again, until a look drops it or it is to go once
        // more.
        // By `out`, `progress`, `put`, `same`, `boxes`, `lines`.
        ensures out { IfOk result (λ out. out ≡ is_some
            (progress_in (ledger.outbox_at self.old.outboxes controller) spawn)) }
        ensures progress { OnOk result ((t : Thing) → ledger.progress_of self.new.outboxes t
            ≡ ledger.progress_with self.old.outboxes
            (record { controller = controller; spawn = spawn })
            (Some progress.Waiting) t) }
        ensures put { IfOk result (λ out. out ≡ true
            → ledger.IsPutAgain (record { controller = controller; spawn = spawn })
            self.old.destinations self.new.routes self.new.destinations) }
        ensures same { IfOk result (λ out. out ≡ false → self.new ≡ self.old) }
        ensures boxes { OnErr result (self.new.outboxes ≡ self.old.outboxes) }
        ensures lines { OnErr result (self.new.destinations ≡ self.old.destinations) }
    {
        let thing = Thing { controller, spawn };
        if self.boxes.progress(&thing).is_none() {
            return Ok(false);
        }
        match self.routes.line_of(&thing) {
            None => Ok(false),
            Some(line) => {
                send(&mut self.courier, &mut self.routes, thing, line, true)?;
                self.boxes.mark(&thing, Some(Progress::Waiting));
                Ok(true)
            }
        }
    }
}
