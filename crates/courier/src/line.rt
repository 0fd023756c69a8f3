ghost use Rattle.std.specs.Prelude.{◌≡◌, ◌==◌, true, false, length};
ghost use Rattle.std.specs.Prelude.{◌&&◌, nat_lt, slice_get, OnOk, OnErr};
ghost use Rattle.courier.specs.Items.{has};
ghost use Rattle.courier.specs.Destination as words;

use crate::{FIRST_DELAY, LAST_DELAY};
use std::alloc::{AllocError, Global};
use std::collections::{BTreeSet, VecDeque};
use std::marker::Model;

/// What is out to one destination, in turn and as a set. The waiting is the destination's, and not
/// each item's: where nothing comes through, there is one try in each delay, however many are out.
#[derive(Drop)]
pub(crate) struct Line {
    queue: VecDeque<u64>,
    known: BTreeSet<u64>,
    flying: bool,
    due: u64,
    since: u64,
    delay: u64,
}

impl Model for Line {
    ghost use Rattle.courier.specs.Destination.{Destination, IsLine};

    ghost Value = { Destination };

    ghost view = { λ a. record {
      items = a.queue.items;
      flying = a.flying;
      due = a.due;
      since = a.since;
      delay = a.delay;
    } };

    ghost invariant = { λ a. IsLine (record {
      items = a.queue.items;
      flying = a.flying;
      due = a.due;
      since = a.since;
      delay = a.delay;
    }) a.known };
}

impl Line {
    /// A line with nothing out.
    pub(crate) fn new(alloc: Global, now: u64) -> Line
        ensures value { result ≡ words.new_at now }
        ensures paced { words.IsPaced result }
    {
        Line {
            queue: VecDeque::new(alloc),
            known: BTreeSet::new(alloc),
            flying: false,
            due: now,
            since: now,
            delay: FIRST_DELAY,
        }
    }

    /// When the next may be sent.
    pub(crate) fn due_time(&self) -> u64
        ensures value { result ≡ self.now.due }
        ensures paced { words.IsPaced self.now }
    {
        self.due
    }

    /// When the last try ended, or the line was made.
    pub(crate) fn since(&self) -> u64
        ensures value { result ≡ self.now.since }
        ensures paced { words.IsPaced self.now }
    {
        self.since
    }

    /// Whether something is in flight.
    pub(crate) fn flies(&self) -> bool
        ensures value { result ≡ self.now.flying }
        ensures paced { words.IsPaced self.now }
    {
        self.flying
    }

    /// What is in flight.
    pub(crate) fn in_flight(&self) -> Option<u64>
        ensures value { result ≡ words.flight_of self.now }
        ensures paced { words.IsPaced self.now }
    {
        if self.flying {
            self.queue.front().copied()
        } else {
            None
        }
    }

    /// Whether nothing is out.
    pub(crate) fn is_empty(&self) -> bool
        ensures value { result ≡ (length self.now.items == 0) }
        ensures paced { words.IsPaced self.now }
    {
        self.queue.is_empty()
    }

    /// Whether an item is out.
    pub(crate) fn has(&self, item: u64) -> bool
        ensures value { result ≡ has item self.now.items }
        ensures paced { words.IsPaced self.now }
    {
        self.known.contains(&item)
    }

    /// One more item is out.
    pub(crate) fn push(&mut self, item: u64) -> Result<(), AllocError>
        requires { has item self.old.items ≡ false }
        ensures ok { OnOk result (self.new ≡ words.with_item item self.old) }
        ensures err { OnErr result (self.new ≡ self.old) }
        ensures paced { words.IsPaced self.new }
    {
        self.known.insert(item)?;
        match self.queue.push_back(item) {
            Ok(()) => Ok(()),
            Err(error) => {
                let _was = self.known.remove(&item);
                Err(AllocError::from(error))
            }
        }
    }

    /// The next is in flight. Answers which.
    pub(crate) fn begin(&mut self) -> u64
        requires { words.waits self.old ≡ true }
        ensures item { slice_get self.old.items 0 ≡ Some result }
        ensures value { self.new ≡ words.after_start self.old }
        ensures paced { words.IsPaced self.new }
    {
        self.flying = true;
        self.queue[0]
    }

    /// The try failed. Answers when the next may be sent.
    pub(crate) fn fail(&mut self, now: u64) -> u64
        requires { self.old.flying ≡ true }
        ensures due { result ≡ self.new.due }
        ensures waits { words.waits self.new ≡ true }
        ensures value { self.new ≡ words.after_failed_try now self.old }
        ensures paced { words.IsPaced self.new }
    {
        self.queue.rotate_left(1);
        self.flying = false;
        self.due = now.saturating_add(self.delay);
        self.since = now;
        self.delay = u64::min(2 * self.delay, LAST_DELAY);
        self.due
    }

    /// The try was answered. Answers whether more is out.
    pub(crate) fn settle(&mut self, now: u64) -> bool
        requires { self.old.flying ≡ true }
        ensures waits { result ≡ words.waits self.new }
        ensures value { self.new ≡ words.after_answer now self.old }
        ensures paced { words.IsPaced self.new }
    {
        self.due = now;
        self.since = now;
        self.delay = FIRST_DELAY;
        self.take_first()
    }

    /// The destination was heard from. Answers whether that ends a waiting.
    pub(crate) fn hear(&mut self, now: u64) -> bool
        ensures ends { result ≡ (words.waits self.old && nat_lt now self.old.due) }
        ensures value { self.new ≡ words.after_hearing now self.old }
        ensures paced { words.IsPaced self.new }
    {
        let ends = !self.flying && !self.queue.is_empty() && now < self.due;
        self.due = u64::min(self.due, now);
        self.delay = FIRST_DELAY;
        ends
    }

    /// The next is out no longer, and nothing is in flight. Answers whether more is out.
    pub(crate) fn take_first(&mut self) -> bool
        requires { self.old.flying ≡ true }
        ensures waits { result ≡ words.waits self.new }
        ensures value { self.new ≡ words.after_withdrawal self.old }
        ensures paced { words.IsPaced self.new }
    {
        if let Some(item) = self.queue.pop_front() {
            let _was = self.known.remove(&item);
        }
        self.flying = false;
        !self.queue.is_empty()
    }
}
