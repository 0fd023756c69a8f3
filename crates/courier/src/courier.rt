ghost use Rattle.std.specs.Prelude.{◌≡◌, ◌<◌, ◌++◌, ◌∷◌, [], true, not, length, All};
ghost use Rattle.std.specs.Prelude.{IfOk, IfNone, OnOk, OnErr};
ghost use Rattle.courier.specs.Destination as words;
ghost use Rattle.courier.specs.Table as table;

use crate::flight::Flight;
use crate::line::Line;
use crate::schedule::Schedule;
use crate::turn::Turn;
use std::alloc::{AllocError, Global};
use std::marker::Model;

/// What is out to all destinations, by their numbers, and the turns of those that wait. One item at
/// a time is in flight to each. A call costs the logarithm of how many destinations there are, and
/// of how many items are out to the one that it is for; `hear_from` costs more where it ends a
/// waiting. Only `add` and `put` need memory.
#[derive(Drop)]
pub struct Courier {
    lines: Vec<Line>,
    schedule: Schedule,
}

impl Model for Courier {
    ghost use Rattle.std.specs.Prelude.{List};
    ghost use Rattle.courier.specs.Destination.{Destination};

    ghost Value = { List Destination };

    ghost use Rattle.courier.specs.Table.{IsConsistent};

    ghost view = { λ a. a.lines.items };

    ghost invariant = { λ a. IsConsistent a.lines.items a.schedule };
}

impl Courier {
    /// No destinations.
    pub fn new(alloc: Global) -> Courier
        // Proved: A courier begins with no destination, and one more has the next number and
        // nothing out.
        // By `Courier::lines`: `value`, `paced`; `Courier::add`: `number`, `ok`, `err`.
        ensures { result ≡ [] }
    {
        Courier {
            lines: Vec::new(alloc),
            schedule: Schedule::new(alloc),
        }
    }

    /// How many destinations there are: their numbers are those below.
    pub fn lines(&self) -> usize
        ensures value { result ≡ length self.now }
        ensures paced { All words.IsPaced self.now }
    {
        self.lines.len()
    }

    /// Whether something is in flight to a destination.
    pub fn flies(&self, line: usize) -> bool
        // Proved: What is in flight to a destination, when its last try ended, and when the next
        // may be sent to any is told.
        // By `Courier::in_flight`, `Courier::last_tried`, `Courier::wake`.
        ensures { result ≡ table.flies_at self.now line }
    {
        line < self.lines.len() && self.lines[line].flies()
    }

    /// What is in flight to a destination.
    pub fn in_flight(&self, line: usize) -> Option<u64>
        ensures { result ≡ table.flight_at self.now line }
    {
        if line < self.lines.len() {
            self.lines[line].in_flight()
        } else {
            None
        }
    }

    /// When the last try to send to a destination ended, or it was added.
    pub fn last_tried(&self, line: usize) -> u64
        // Wants: a destination that is there.
        requires { line < length self.now }
        ensures { result ≡ (table.destination_at self.now line).since }
    {
        self.lines[line].since()
    }

    /// One destination more, with nothing out. Answers its number.
    pub fn add(&mut self, alloc: Global, now: u64) -> Result<usize, AllocError>
        ensures number { IfOk result (λ line. line ≡ length self.old) }
        ensures ok { OnOk result (self.new ≡ self.old ++ words.new_at now ∷ []) }
        ensures err { OnErr result (self.new ≡ self.old) }
    {
        let line = self.lines.len();
        self.schedule.reserve(line + 1)?;
        self.lines.push(Line::new(alloc, now))?;
        Ok(line)
    }

    /// One item more is out to a destination, behind the others. Answers whether it wasn't before.
    pub fn put(&mut self, line: usize, item: u64) -> Result<bool, AllocError>
        // Wants: a destination that is there.
        requires { line < length self.old }
        // Proved: An item that is put is out, once.
        // By `new`, `ok`, `err`.
        ensures new { IfOk result (λ new. new ≡ not (table.is_out self.old line item)) }
        ensures ok { OnOk result (self.new ≡ table.put item self.old line) }
        ensures err { OnErr result (self.new ≡ self.old) }
    {
        if self.lines[line].has(item) {
            return Ok(false);
        }
        let due = self.lines[line].due_time();
        let begins = self.lines[line].is_empty();
        self.lines[line].push(item)?;
        self.schedule.add(begins, Turn { due, line });
        Ok(true)
    }

    /// What is to be sent now, and is in flight from then on, until the caller tells how it ended.
    /// Nothing bounds how long that takes: the caller has its own limit, and calls `fail_flight`
    /// then. To send all that is due, it is called until there is nothing.
    pub fn next(&mut self, now: u64) -> Option<Flight>
        // Proved: What is given is the first item of a destination to which nothing is in flight,
        // whose moment has come, and none that waits comes before it; where nothing is given,
        // whatever waits had its last try end less than 60 seconds ago.
        // By `next`, `after`, `tried`.
        ensures next { table.IsNextOrQuiet now self.old result }
        ensures after { self.new ≡ table.after_next self.old result }
        ensures tried { IfNone result (table.AreTried now self.new) }
    {
        let turn = self.schedule.take_due(now)?;
        let item = self.lines[turn.line].begin();
        Some(Flight {
            line: turn.line,
            item,
        })
    }

    /// When there may be something to be sent again, if anything waits.
    pub fn wake(&self) -> Option<u64>
        ensures { table.IsWake self.now result }
    {
        match self.schedule.first() {
            Some(turn) => Some(turn.due),
            None => None,
        }
    }

    /// What is in flight to a destination failed: it goes behind the others.
    pub fn fail_flight(&mut self, line: usize, now: u64)
        // Wants: a destination to which something is in flight.
        requires { table.flies_at self.old line ≡ true }
        ensures { self.new ≡ table.with_changed (words.after_failed_try now) self.old line }
    {
        let due = self.lines[line].fail(now);
        self.schedule.add(true, Turn { due, line });
    }

    /// What is in flight to a destination was answered: it is out no longer.
    pub fn settle_flight(&mut self, line: usize, now: u64)
        // Wants: a destination to which something is in flight.
        requires { table.flies_at self.old line ≡ true }
        // Proved: What is settled or withdrawn isn't out any more, and what failed goes behind the
        // others of its destination, which waits 1 second then, doubled up to 60.
        // By `Courier::withdraw_flight`, `Courier::fail_flight`.
        ensures { self.new ≡ table.with_changed (words.after_answer now) self.old line }
    {
        let goes_on = self.lines[line].settle(now);
        self.schedule.add(goes_on, Turn { due: now, line });
    }

    /// What is in flight to a destination wasn't sent, since it turned out to be out no longer:
    /// what is so in the middle of a line is found as its turn comes.
    pub fn withdraw_flight(&mut self, line: usize)
        // Wants: a destination to which something is in flight.
        requires { table.flies_at self.old line ≡ true }
        ensures { self.new ≡ table.with_changed words.after_withdrawal self.old line }
    {
        let goes_on = self.lines[line].take_first();
        let due = self.lines[line].due_time();
        self.schedule.add(goes_on, Turn { due, line });
    }

    /// Something came from a destination, so it is there: what waits for it may be sent at once. An
    /// unknown number changes nothing. Where that ends a waiting it is a walk over all that wait.
    pub fn hear_from(&mut self, line: usize, now: u64)
        // Proved: A destination that is heard from is due then, if it wasn't before, and waits 1
        // second behind the next failure; its items, what is in flight and all other destinations
        // stay, and an unknown number changes nothing.
        ensures { self.new ≡ table.with_changed (words.after_hearing now) self.old line }
    {
        if line >= self.lines.len() {
            return;
        }
        let due = self.lines[line].due_time();
        if self.lines[line].hear(now) {
            self.schedule.advance(Turn { due, line }, now);
        }
    }
}
